//! Kinds of fault, several at once.
ghost use Rattle.std.specs.Prelude.{◌≡◌, ◌||◌, false};

/// The kinds of fault that are in a request, or in an operation.
#[derive(Clone, Copy, Drop)]
pub struct Kinds {
    pub syntax: bool,
    pub prefix: bool,
    pub variable_in_data: bool,
    pub blank_in_delete: bool,
    pub label_reused: bool,
    pub limit: bool,
}

impl Kinds {
    // None but the limit, if that is one.
    pub(crate) fn new(limit: bool) -> Self
        ensures { result ≡ record {
          syntax = false;
          prefix = false;
          variable_in_data = false;
          blank_in_delete = false;
          label_reused = false;
          limit = limit;
        } }
    {
        Kinds {
            syntax: false,
            prefix: false,
            variable_in_data: false,
            blank_in_delete: false,
            label_reused: false,
            limit,
        }
    }

    // These and others.
    pub(crate) fn with(self, more: Kinds) -> Self
        ensures { result ≡ record {
          syntax = self.syntax || more.syntax;
          prefix = self.prefix
              || more.prefix;
          variable_in_data = self.variable_in_data
              || more.variable_in_data;
          blank_in_delete = self.blank_in_delete
              || more.blank_in_delete;
          label_reused = self.label_reused
              || more.label_reused;
          limit = self.limit || more.limit;
        } }
    {
        Kinds {
            syntax: self.syntax || more.syntax,
            prefix: self.prefix || more.prefix,
            variable_in_data: self.variable_in_data || more.variable_in_data,
            blank_in_delete: self.blank_in_delete || more.blank_in_delete,
            label_reused: self.label_reused || more.label_reused,
            limit: self.limit || more.limit,
        }
    }
}
