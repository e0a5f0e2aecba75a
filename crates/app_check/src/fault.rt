//! The least of the faults.

ghost use Rattle.std.specs.Prelude.{◌≡◌, Some};
ghost use Rattle.app_check.specs.Seeing as seeing;

use script_tree::Rule;

/// A place, and the rule that is broken there.
pub type Fault = (u32, Rule);

/// The least of those so far, if there were any, and of one more.
pub fn lesser(least: Option<Fault>, fault: Fault) -> Fault
    ensures { Some result ≡ seeing.lesser least fault }
{
    match least {
        None => fault,
        Some(other) => {
            if fault.0 < other.0 || (fault.0 == other.0 && fault.1.number() < other.1.number()) {
                fault
            } else {
                other
            }
        }
    }
}
