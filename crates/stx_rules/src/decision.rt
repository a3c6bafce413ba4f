// The decision for a thrown class, and the rule that makes it.
ghost use Rattle.std.specs.Prelude.{◌≡◌, ◌≤◌, ◌<◌, ◌^◌, ◌||◌, length, take};
ghost use Rattle.stx_scenario.specs.BuiltIn.{built_in};
ghost use Rattle.stx_base.specs.Classes.{parents_of, is_below_in};
ghost use Rattle.stx_base.specs.Rules.{winner, rolls_back};
ghost use Rattle.stx_scenario.specs.declared.classes.TheConstants.{ERROR, RUNTIME_EXCEPTION};

use crate::depth::rule_depth;
use stx_classes::ClassTree;
use stx_scenario::{ClassDecl, ClassNo, ERROR, List, RUNTIME_EXCEPTION, Rule, Scenario};

/// Whether an exception rolls back, and which rule says so.
#[derive(Clone, Copy, Debug, PartialEq, Eq)]
pub struct Decision {
    /// Whether the transaction rolls back; else it commits.
    pub rollback: bool,
    /// The rule's place in its list, from 0; `None` exactly where no rule matches.
    pub winner: Option<u32>,
}

// A rule that matches, and how deep.
#[derive(Clone, Copy)]
struct Match {
    place: u32,
    depth: u32,
}

/// What the rules decide where a class is thrown: the rule of least depth, the first of these where there are several;
/// without a match `RuntimeException`, `Error` and all below them roll back. The tree is that of the scenario's classes.
#[tactic(auto, unfolding(stx_base::specs::Rules::rolls_back))]
pub fn decide(
    tree: &ClassTree,
    scenario: &Scenario,
    rules: &List<Rule>,
    thrown: ClassNo,
) -> Decision
    requires tree { tree.now ≡ parents_of scenario.now.classes }
    requires built_in { take (length built_in) scenario.now.classes ≡ built_in }
    requires few_classes { length scenario.now.classes < 2 ^ 32 }
    requires few_rules { length rules.now < 2 ^ 32 }
    requires thrown { thrown.0 < length scenario.now.classes }
    ensures winner { result.winner ≡ winner scenario.now.classes rules.now thrown.0 }
    ensures rollback { result.rollback ≡ rolls_back scenario.now.classes rules.now thrown.0 }
{
    let winner = winner(scenario.classes.as_slice(), rules.as_slice(), thrown);
    let rule = match winner {
        Some(place) => rules.get(place as usize),
        None => None,
    };
    let rollback = match rule {
        Some(rule) => rule.rollback,
        None => rolls_back_by_default(tree, thrown),
    };
    Decision { rollback, winner }
}

fn rolls_back_by_default(tree: &ClassTree, thrown: ClassNo) -> bool
    requires thrown { thrown.0 < length tree.now }
    requires built_in { length built_in ≤ length tree.now }
    ensures { result ≡ (is_below_in tree.now thrown.0 RUNTIME_EXCEPTION.0 || is_below_in tree.now thrown.0 ERROR.0) }
{
    tree.is_below(thrown, RUNTIME_EXCEPTION) || tree.is_below(thrown, ERROR)
}

fn winner(classes: &[ClassDecl], rules: &[Rule], thrown: ClassNo) -> Option<u32>
    requires classes { length classes.now < 2 ^ 32 }
    requires few { length rules.now < 2 ^ 32 }
    ensures { result ≡ winner classes.now rules.now thrown.0 }
{
    // From the last rule to the first, so that of two equally deep the earlier stays.
    let mut best: Option<Match> = None;
    for place in (0..rules.len() as u32).rev() {
        if let Some(depth) = rule_depth(classes, &rules[place as usize], thrown) {
            match best {
                Some(later) if later.depth < depth => {}
                _ => best = Some(Match { place, depth }),
            }
        }
    }
    match best {
        Some(found) => Some(found.place),
        None => None,
    }
}
