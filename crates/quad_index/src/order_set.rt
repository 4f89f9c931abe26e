//! Which orders are kept.
ghost use Rattle.std.specs.Prelude.{◌≡◌, ◌∷◌, ◌↔◌, true};
ghost use Rattle.std.specs.List.{Contains};
ghost use Rattle.quad_index.specs.OrderSet.{has_order};
ghost use Rattle.quad_lists.specs.declared.key.Arrangement.{Arrangement as Which};

use quad_lists::Arrangement;

/// SPOG, and which of the orders beside it.
#[derive(Clone, Copy, Debug)]
pub struct OrderSet {
    pub pogs: bool,
    pub ogsp: bool,
    pub gspo: bool,
    pub gpso: bool,
    pub ospg: bool,
}

impl OrderSet {
    /// SPOG and these orders.
    pub fn of(orders: &[Arrangement]) -> OrderSet
        ensures { (a : Which) → (has_order result a ≡ true)
            ↔ Contains (Arrangement.Spog ∷ orders.now) a }
    {
        OrderSet {
            pogs: orders.contains(&Arrangement::Pogs),
            ogsp: orders.contains(&Arrangement::Ogsp),
            gspo: orders.contains(&Arrangement::Gspo),
            gpso: orders.contains(&Arrangement::Gpso),
            ospg: orders.contains(&Arrangement::Ospg),
        }
    }

    /// Whether it has an order.
    pub fn has(self, arrangement: Arrangement) -> bool
        ensures { result ≡ has_order self arrangement }
    {
        match arrangement {
            Arrangement::Spog => true,
            Arrangement::Pogs => self.pogs,
            Arrangement::Ogsp => self.ogsp,
            Arrangement::Gspo => self.gspo,
            Arrangement::Gpso => self.gpso,
            Arrangement::Ospg => self.ospg,
        }
    }
}
