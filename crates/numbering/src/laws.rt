//! The law of numbering, as the contract of a function with an empty body.
ghost use Rattle.numbering.specs.Numbered.{CarriesBlock};

use dict::laws::is_renaming;

/// The run of the numbers is the run of the terms: numbering, running and naming is running.
pub fn carries_block()
    ensures { CarriesBlock }
{
    is_renaming();
}
