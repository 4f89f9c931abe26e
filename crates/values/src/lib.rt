//! What filter expressions over terms mean, in specs/: their values under a mapping, effective
//! boolean values, and which mappings pass. Stands on `terms`, `algebra` and `meaning`.
