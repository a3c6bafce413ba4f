//! The names, words, numbers and sentences that a scenario writes, and names that stand twice.
#![tactic(auto)]

mod duplicates;
mod named;
mod names;
mod numbered;
mod numbers;
mod sentence;
mod words;

pub use duplicates::{built_in_numbers, duplicate_among, with_names};
pub use named::{Named, method_text, names_of};
pub use names::{is_class_name, is_name, is_pattern, may_name_class, number_in};
pub use numbered::Numbered;
pub use numbers::{NOTHING, Numbers};
pub use sentence::{Matched, RuleSentence, Sentence, Word, method_in, rule_in, sentence_in};
pub use words::{mode_in, phase_in, propagation_in};
