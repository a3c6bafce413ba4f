// What the stages on single values refuse: names, ranges and words.
ghost use Rattle.std.specs.Prelude.{◌≡◌, IfOk};
ghost use Rattle.toml.specs.View.{view};
ghost use Rattle.stx_refusals.specs.Faults.{unless as unless_passed, count_stage as count_stage_of};
ghost use Rattle.stx_names.specs.Integers.{is_within as within_test};
ghost use Rattle.stx_walk.specs.Schema.{text_stage as text_stage_of, number_stage as number_stage_of, flag_stage as flag_stage_of, leaf_stage as leaf_stage_of};

use crate::schema::Leaf;
use stx_names::{is_class_name, is_name, mode_in, phase_in, propagation_in, rule_in, sentence_in};
use stx_refusals::Stage;
use stx_scenario::{MOST_CLIENTS, MOST_CONNECTIONS};
use toml::Value;

/// What is refused in a single value.
#[tactic(auto, using(crate::proofs::LeafLaws::stage_of_text, crate::proofs::LeafLaws::stage_of_number, crate::proofs::LeafLaws::stage_of_flag, crate::proofs::LeafLaws::stage_of_other))]
pub fn leaf_stage(leaf: Leaf, value: &Value) -> Option<Stage>
    ensures { result ≡ leaf_stage_of leaf (view value.now) }
{
    if let Some(text) = value.as_str() {
        return text_stage(leaf, text);
    }
    if let Some(number) = value.as_integer() {
        return number_stage(leaf, number);
    }
    if value.is_bool() {
        return flag_stage(leaf);
    }
    Some(Stage::WrongType)
}

/// What is refused in the number of an array's entries.
pub fn count_stage(least: usize, most: usize, count: usize) -> Option<Stage>
    ensures { result ≡ count_stage_of least most count }
{
    if count < least {
        return Some(Stage::OutOfRange);
    }
    unless(count <= most, Stage::TooMany)
}

fn text_stage(leaf: Leaf, text: &str) -> Option<Stage>
    ensures { result ≡ text_stage_of leaf text.now }
{
    match leaf {
        Leaf::Text => None,
        Leaf::Name => unless(is_name(text), Stage::BadName),
        Leaf::ClassName => unless(is_class_name(text), Stage::BadName),
        Leaf::ModeWord => unless(mode_in(text).is_some(), Stage::BadWord),
        Leaf::PropagationWord => unless(propagation_in(text).is_some(), Stage::BadWord),
        Leaf::PhaseWord => unless(phase_in(text).is_some(), Stage::BadWord),
        Leaf::Statement => unless(sentence_in(text).is_some(), Stage::BadWord),
        Leaf::Rule => unless(rule_in(text).is_some(), Stage::BadWord),
        Leaf::Flag | Leaf::Pool | Leaf::Order | Leaf::Client | Leaf::RowValue => {
            Some(Stage::WrongType)
        }
    }
}

fn number_stage(leaf: Leaf, number: i64) -> Option<Stage>
    ensures { result ≡ number_stage_of leaf number }
{
    match leaf {
        Leaf::Pool => unless(
            is_within(1, i64::from(MOST_CONNECTIONS), number),
            Stage::OutOfRange,
        ),
        Leaf::Order => unless(
            is_within(-2_147_483_648, 2_147_483_647, number),
            Stage::OutOfRange,
        ),
        Leaf::Client => unless(
            is_within(0, MOST_CLIENTS as i64 - 1, number),
            Stage::OutOfRange,
        ),
        Leaf::RowValue => None,
        _ => Some(Stage::WrongType),
    }
}

fn flag_stage(leaf: Leaf) -> Option<Stage>
    ensures { result ≡ flag_stage_of leaf }
{
    match leaf {
        Leaf::Flag => None,
        _ => Some(Stage::WrongType),
    }
}

/// Whether a number is in a range, both ends included.
fn is_within(low: i64, high: i64, number: i64) -> bool
    ensures { result ≡ within_test low high number }
{
    low <= number && number <= high
}

/// This stage, unless the test passed.
pub fn unless(passed: bool, stage: Stage) -> Option<Stage>
    ensures { result ≡ unless_passed passed stage }
{
    if passed { None } else { Some(stage) }
}
