// What a statement or a rule says by names, before these are looked up. It takes no memory: names stay where they stand.
ghost use Rattle.std.specs.Prelude.{◌≡◌, ◌≢◌, ◌∷◌, [], ◌<◌, length, IfSome, IfNone, Some, None, option_map};
ghost use Rattle.stx_names.specs.declared.sentence.Matched.{Matched as MatchedData};
ghost use Rattle.stx_names.specs.declared.sentence.Sentence.{Sentence as SentenceData};
ghost use Rattle.stx_names.specs.Sentences.{pieces_of, name_in as name_of, class_in as class_of, pattern_in as pattern_of, method_in as method_of, call_of};
ghost use Rattle.stx_names.specs.Sentences.{alone as alone_of, about as about_of, with_value as valued, catching as catching_of, with_catch as caught, sentence_in as sentence_of};
ghost use Rattle.stx_names.specs.Sentences.{matched_in as matched_of, decision_in as decision_of, rule_in as rule_of};

use crate::names::{is_name, is_pattern, may_name_class, number_in};
use std::marker::Model;

/// A name or a pattern, where a sentence says it.
#[derive(Debug, Drop)]
pub struct Word<'a> {
    text: &'a str,
}

impl<'a> Model for Word<'a> {
    ghost use Rattle.std.specs.Prelude.{List, ℕ};
    ghost use Rattle.std.specs.Coded.{coded_list, coded_ℕ};

    ghost Value = { List ℕ };

    ghost coded = { coded_list coded_ℕ };

    ghost view = { λ word. word.text.now };
}

impl<'a> Word<'a> {
    pub fn as_str(&self) -> &str
        ensures { result.now ≡ self.now }
    {
        self.text
    }
}

/// A statement by the names in it.
#[derive(Debug, Drop)]
pub enum Sentence<'a> {
    Read(Word<'a>),
    Write(Word<'a>, i64),
    Erase(Word<'a>),
    Add(Word<'a>, i64),
    Need(Word<'a>, i64),
    Call {
        bean: Word<'a>,
        method: Word<'a>,
        catch: Option<Word<'a>>,
    },
    This {
        method: Word<'a>,
        catch: Option<Word<'a>>,
    },
    Throw(Word<'a>),
    Mark,
    Publish(Word<'a>),
    Register(Word<'a>),
}

/// A rule by the name or the pattern in it.
#[derive(Debug, Drop)]
pub struct RuleSentence<'a> {
    pub rollback: bool,
    pub by: Matched<'a>,
}

/// Which classes a rule names.
#[derive(Debug, Drop)]
pub enum Matched<'a> {
    Class(Word<'a>),
    Pattern(Word<'a>),
}

// ---- pieces between separators

/// The first piece of a text and what stands after the separator, where there is one.
fn first_piece(text: &str, separator: char) -> Option<(&str, &str)>
    requires { separator < 128 }
    ensures more { IfSome result (λ cut. pieces_of separator text.now ≡ cut.0.now ∷ pieces_of separator cut.1.now) }
    ensures one { IfNone result (pieces_of separator text.now ≡ text.now ∷ []) }
{
    text.split_once(separator)
}

/// The pieces of a text that has exactly two.
fn two_pieces(text: &str, separator: char) -> Option<(&str, &str)>
    requires { separator < 128 }
    ensures two { IfSome result (λ pieces. pieces_of separator text.now ≡ pieces.0.now ∷ pieces.1.now ∷ []) }
    ensures others { IfNone result (length (pieces_of separator text.now) ≢ 2) }
{
    let (first, rest) = first_piece(text, separator)?;
    match first_piece(rest, separator) {
        Some(_) => None,
        None => Some((first, rest)),
    }
}

// ---- statements

/// The statement that a text is.
pub fn sentence_in(text: &str) -> Option<Sentence<'_>>
    ensures { result ≡ sentence_of text.now }
{
    let Some((verb, rest)) = first_piece(text, ' ') else {
        return alone(text);
    };
    let Some((object, rest)) = first_piece(rest, ' ') else {
        return about(verb, rest);
    };
    let Some((word, rest)) = first_piece(rest, ' ') else {
        return with_value(verb, object, rest);
    };
    match first_piece(rest, ' ') {
        Some(_) => None,
        None => with_catch(verb, object, word, rest),
    }
}

/// The statement of one word.
fn alone(verb: &str) -> Option<Sentence<'_>>
    ensures { result ≡ alone_of verb.now }
{
    match verb {
        "mark" => Some(Sentence::Mark),
        _ => None,
    }
}

/// The statement of a word and what it is about.
fn about<'a>(verb: &str, object: &'a str) -> Option<Sentence<'a>>
    ensures { result ≡ about_of verb.now object.now }
{
    match verb {
        "read" => name_in(object).map(Sentence::Read),
        "erase" => name_in(object).map(Sentence::Erase),
        "call" => call(object, None),
        "this" => this(object, None),
        "throw" => class_in(object).map(Sentence::Throw),
        "publish" => name_in(object).map(Sentence::Publish),
        "register" => name_in(object).map(Sentence::Register),
        _ => None,
    }
}

/// The statement of a word, a row and a number.
fn with_value<'a>(verb: &str, row: &'a str, value: &str) -> Option<Sentence<'a>>
    ensures { result ≡ valued verb.now row.now value.now }
{
    let row = name_in(row)?;
    let value = number_in(value)?;
    match verb {
        "write" => Some(Sentence::Write(row, value)),
        "add" => Some(Sentence::Add(row, value)),
        "need" => Some(Sentence::Need(row, value)),
        _ => None,
    }
}

/// The call that catches a class.
fn with_catch<'a>(verb: &str, object: &'a str, word: &str, class: &'a str) -> Option<Sentence<'a>>
    ensures { result ≡ caught verb.now object.now word.now class.now }
{
    if word != "catch" {
        return None;
    }
    match class_in(class) {
        Some(class) => catching(verb, object, class),
        None => None,
    }
}

fn catching<'a>(verb: &str, object: &'a str, class: Word<'a>) -> Option<Sentence<'a>>
    ensures { result ≡ catching_of verb.now object.now class.entry }
{
    match verb {
        "call" => call(object, Some(class)),
        "this" => this(object, Some(class)),
        _ => None,
    }
}

fn call<'a>(object: &'a str, catch: Option<Word<'a>>) -> Option<Sentence<'a>>
    ensures { result ≡ option_map (call_of catch.entry) (method_of object.now) }
{
    let (bean, method) = method_in(object)?;
    Some(Sentence::Call {
        bean,
        method,
        catch,
    })
}

fn this<'a>(object: &'a str, catch: Option<Word<'a>>) -> Option<Sentence<'a>>
    ensures { result ≡ option_map (λ m. SentenceData.This m catch.entry) (name_of object.now) }
{
    let method = name_in(object)?;
    Some(Sentence::This { method, catch })
}

// ---- what stands for a word

fn name_in(text: &str) -> Option<Word<'_>>
    ensures { result ≡ name_of text.now }
{
    if !is_name(text) {
        return None;
    }
    Some(Word { text })
}

fn class_in(text: &str) -> Option<Word<'_>>
    ensures { result ≡ class_of text.now }
{
    if !may_name_class(text) {
        return None;
    }
    Some(Word { text })
}

fn pattern_in(text: &str) -> Option<Word<'_>>
    ensures { result ≡ pattern_of text.now }
{
    if !is_pattern(text) {
        return None;
    }
    Some(Word { text })
}

/// The bean and the method that `BEAN.METHOD` names.
pub fn method_in(text: &str) -> Option<(Word<'_>, Word<'_>)>
    ensures { result ≡ method_of text.now }
{
    let (bean, method) = two_pieces(text, '.')?;
    Some((name_in(bean)?, name_in(method)?))
}

// ---- rules

/// The rule that a text is.
#[tactic(auto, unfolding(crate::specs::Sentences::rule_in))]
pub fn rule_in(text: &str) -> Option<RuleSentence<'_>>
    ensures { result ≡ rule_of text.now }
{
    let (verb, object) = two_pieces(text, ' ')?;
    let rollback = decision_in(verb)?;
    let by = matched_in(object)?;
    Some(RuleSentence { rollback, by })
}

/// What a rule's first word decides: whether to roll back.
fn decision_in(verb: &str) -> Option<bool>
    ensures { result ≡ decision_of verb.now }
{
    match verb {
        "rollback" => Some(true),
        "keep" => Some(false),
        _ => None,
    }
}

/// The classes that a rule names: `~PATTERN`, or a class.
fn matched_in(text: &str) -> Option<Matched<'_>>
    ensures { result ≡ matched_of text.now }
{
    match text.strip_prefix('~') {
        Some(pattern) => pattern_in(pattern).map(Matched::Pattern),
        None => by_class(text),
    }
}

fn by_class(text: &str) -> Option<Matched<'_>>
    ensures { result ≡ option_map MatchedData.Class (class_of text.now) }
{
    class_in(text).map(Matched::Class)
}
