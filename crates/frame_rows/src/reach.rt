//! How far below the canonical frame address (CFA) registers are saved.

ghost use Rattle.std.specs.Prelude.{◌≡◌, map, true};
ghost use Rattle.frame_rows.specs.Reach.{AreSavedBelow, IsReach, IsSavedBelow};
ghost use Rattle.frame_rows.specs.Rules.{entry_of, rule_meaning};

use crate::rule::RegisterRule;
use unwind_arch::Register;

// The columns of x86-64's general registers and of its return address are at most this.
const LAST_COLUMN: u16 = 16;

/// How many bytes below the CFA hold all that rules say is saved, 0 where one says otherwise or none
/// is known to reach below.
pub(crate) fn reach_of(rules: &[(Register, RegisterRule<'_>)]) -> u64
    ensures { IsReach result (map entry_of rules.now) }
{
    let reach = deepest(rules);
    if are_saved_below(reach, rules) {
        reach
    } else {
        0
    }
}

// How far below the CFA the lowest word lies.
fn deepest(rules: &[(Register, RegisterRule<'_>)]) -> u64 {
    let mut reach = 0u64;
    for i in 0..rules.len() {
        if let RegisterRule::Offset(offset) = rules[i].1 {
            reach = reach.max(offset.wrapping_neg());
        }
    }
    reach
}

// Whether each rule finds its register in a word of so many bytes below the CFA.
fn are_saved_below(reach: u64, rules: &[(Register, RegisterRule<'_>)]) -> bool
    ensures { result ≡ true → AreSavedBelow reach (map entry_of rules.now) }
{
    match rules {
        [] => true,
        [first, rest @ ..] => {
            is_saved_below(reach, first.0, &first.1) && are_saved_below(reach, rest)
        }
    }
}

// Whether one does.
fn is_saved_below(reach: u64, register: Register, rule: &RegisterRule<'_>) -> bool
    ensures { result ≡ true → IsSavedBelow reach register.0 (rule_meaning rule.now) }
{
    match rule {
        RegisterRule::Offset(offset) => {
            register.0 <= LAST_COLUMN && *offset <= u64::MAX - 7 && reach > u64::MAX - *offset
        }
        _ => false,
    }
}
