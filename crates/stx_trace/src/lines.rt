// The text of a line: its words, its place where it has one, and a line feed.
ghost use Rattle.std.specs.Prelude.{◌≡◌, ◌≢◌, ◌++◌, OnOk, OnErr, codes};
ghost use Rattle.std.specs.Fmt.{decimal, signed_decimal};
ghost use Rattle.stx_base.specs.Lines as texts;
ghost use Rattle.stx_base.specs.Lines.{OfNeither};
ghost use Rattle.stx_trace.specs.LineKinds.{shared_of};

use crate::history::History;
use crate::names::{bean_name, class_name, label_name, listener_name, method_at, text_at};
use crate::text::LineText;
use crate::words::{
    completion_word, decision_word, ending_word, kind_word, propagation_word, where_set,
};
use std::alloc::Global;
use std::mem;
use stx_base::{Access, Answer, Kind, Line};
use stx_scenario::{ClassNo, MethodNo, NoMemory, Propagation, Scenario};

/// Appends the text of a line: its words, the place of its entry where it is of a shared call, and a line feed.
///
/// The place counts from 1 in the history of the pool or of the store; a line of the client's own prints none. For want
/// of memory the text stays as it was.
pub fn push_line(
    alloc: Global,
    out: &mut Vec<u8>,
    line: &Line,
    place: Option<u64>,
    scenario: &Scenario,
) -> Result<(), NoMemory>
    ensures ok { OnOk result (out.new.items ≡
        out.old.items ++ texts.line_text scenario.now line.now place) }
    ensures err { OnErr result (out.new.items ≡ out.old.items) }
{
    let mut text = LineText::at_end_of(mem::replace(out, Vec::new(alloc)));
    match push_whole(&mut text, line, place, scenario) {
        Ok(()) => {
            *out = text.with_line();
            Ok(())
        }
        Err(refused) => {
            *out = text.without_line();
            Err(refused)
        }
    }
}

fn push_whole(
    text: &mut LineText,
    line: &Line,
    place: Option<u64>,
    scenario: &Scenario,
) -> Result<(), NoMemory>
    ensures before { text.new.before ≡ text.old.before }
    ensures ok { OnOk result (text.new.line ≡ text.old.line ++ texts.line_text scenario.now line.now place) }
{
    push_words(text, line, scenario)?;
    push_place(text, History::of(line), place)?;
    text.push("\n")
}

fn push_place(text: &mut LineText, history: History, place: Option<u64>) -> Result<(), NoMemory>
    ensures before { text.new.before ≡ text.old.before }
    ensures ok { OnOk result (text.new.line ≡ text.old.line ++ texts.place_text (shared_of history) place) }
{
    match (history, place) {
        (History::Pool, Some(place)) => counted(text, " @p", place),
        (History::Store, Some(place)) => counted(text, " @s", place),
        _ => Ok(()),
    }
}

fn push_words(text: &mut LineText, line: &Line, scenario: &Scenario) -> Result<(), NoMemory>
    ensures before { text.new.before ≡ text.old.before }
    ensures ok { OnOk result (text.new.line ≡ text.old.line ++ texts.line_words scenario.now line.now) }
{
    match History::of(line) {
        History::Neither => push_own(text, line, scenario),
        _ => push_shared(text, line, scenario),
    }
}

/// The words of a line of a shared call.
#[tactic(auto, unfolding(stx_base::specs::Lines::line_words))]
fn push_shared(text: &mut LineText, line: &Line, scenario: &Scenario) -> Result<(), NoMemory>
    requires { texts.shared_by line.now ≢ OfNeither }
    ensures before { text.new.before ≡ text.old.before }
    ensures ok { OnOk result (text.new.line ≡ text.old.line ++ texts.line_words scenario.now line.now) }
{
    match *line {
        Line::Take(connection) => push_take(text, connection),
        Line::Give(connection) => counted(text, "give ", connection.into()),
        Line::Begin(tx) => counted(text, "begin ", tx.into()),
        Line::Row { access, answer, .. } => {
            push_access(text, access, scenario)?;
            push_answer(text, answer)
        }
        Line::Auto { access, answer } => {
            text.push("auto ")?;
            push_access(text, access, scenario)?;
            push_answer(text, answer)
        }
        Line::Savepoint(_) => text.push("savepoint"),
        Line::BackTo(_) => text.push("back_to"),
        Line::Release(_) => text.push("release"),
        Line::Commit { number, .. } => counted(text, "commit ", number),
        Line::Rollback(_) => text.push("rollback"),
        _ => unreachable!(),
    }
}

/// The words of a line of the client's own.
#[tactic(auto, unfolding(stx_base::specs::Lines::line_words))]
fn push_own(text: &mut LineText, line: &Line, scenario: &Scenario) -> Result<(), NoMemory>
    requires { texts.shared_by line.now ≡ OfNeither }
    ensures before { text.new.before ≡ text.old.before }
    ensures ok { OnOk result (text.new.line ≡ text.old.line ++ texts.line_words scenario.now line.now) }
{
    match *line {
        Line::Top(call) => counted(text, "top ", call.into()),
        Line::Call {
            method,
            propagation,
            read_only,
        } => push_call(text, method, propagation, read_only, scenario),
        Line::Plain(method) => push_plain(text, method, scenario),
        Line::This(method) => push_this(text, method, scenario),
        Line::Leave { method, thrown } => push_leave(text, method, thrown, scenario),
        Line::Suspend(label) => named(text, "suspend ", label_name(scenario, label)),
        Line::Resume(label) => named(text, "resume ", label_name(scenario, label)),
        Line::Unbind(connection) => counted(text, "unbind ", connection.into()),
        Line::Bind(connection) => counted(text, "bind ", connection.into()),
        Line::Opened { kind, owns } => push_opened(text, kind, owns),
        Line::Throw(class) => named(text, "throw ", class_name(scenario, class)),
        Line::Catch(class) => named(text, "catch ", class_name(scenario, class)),
        Line::Rules { rollback, winner } => push_rules(text, rollback, winner),
        Line::End(ending) => named(text, "end ", ending_word(ending)),
        Line::MarkGlobal => text.push("mark_global"),
        Line::Mark => text.push("mark"),
        Line::Register(label) => named(text, "register ", label_name(scenario, label)),
        Line::Publish(event) => named(text, "publish ", text_at(&scenario.events, event.0)),
        Line::Skip(listener) => named(text, "skip ", listener_name(scenario, listener)),
        Line::Listen(listener) => named(text, "listen ", listener_name(scenario, listener)),
        Line::BeforeCommit(label) => named(text, "before_commit ", label_name(scenario, label)),
        Line::BeforeCompletion(label) => named(
            text,
            "before_completion ",
            label_name(scenario, label),
        ),
        Line::AfterCommit(label) => named(text, "after_commit ", label_name(scenario, label)),
        Line::AfterCompletion { label, committed } => {
            let word = completion_word(committed);
            named_with(text, "after_completion ", label_name(scenario, label), word)
        }
        Line::Swallow(class) => named(text, "swallow ", class_name(scenario, class)),
        _ => unreachable!(),
    }
}

/// A verb with a number.
fn counted(text: &mut LineText, verb: &str, number: u64) -> Result<(), NoMemory>
    ensures before { text.new.before ≡ text.old.before }
    ensures ok { OnOk result (text.new.line ≡ text.old.line ++ (verb.now ++ decimal number)) }
{
    text.push(verb)?;
    text.push_count(number)
}

/// A verb with a name or a word.
fn named(text: &mut LineText, verb: &str, name: &str) -> Result<(), NoMemory>
    ensures before { text.new.before ≡ text.old.before }
    ensures ok { OnOk result (text.new.line ≡ text.old.line ++ (verb.now ++ name.now)) }
{
    text.push(verb)?;
    text.push(name)
}

/// A verb with a name, and a word after it.
fn named_with(text: &mut LineText, verb: &str, name: &str, word: &str) -> Result<(), NoMemory>
    ensures before { text.new.before ≡ text.old.before }
    ensures ok { OnOk result (text.new.line ≡
        text.old.line ++ (verb.now ++ name.now ++ codes " " ++ word.now)) }
{
    named(text, verb, name)?;
    named(text, " ", word)
}

/// A verb with a method, as `bean.method`; nothing after the verb where no method has the number.
fn push_method(
    text: &mut LineText,
    verb: &str,
    method: MethodNo,
    scenario: &Scenario,
) -> Result<(), NoMemory>
    ensures before { text.new.before ≡ text.old.before }
    ensures ok { OnOk result (text.new.line ≡
        text.old.line ++ (verb.now ++ texts.method_name scenario.now method)) }
{
    text.push(verb)?;
    match method_at(scenario, method) {
        Some(method) => {
            text.push(bean_name(scenario, method.bean))?;
            text.push(".")?;
            text.push(method.name.as_str())
        }
        None => Ok(()),
    }
}

#[tactic(auto, unfolding(stx_base::specs::Lines::line_words))]
fn push_call(
    text: &mut LineText,
    method: MethodNo,
    propagation: Propagation,
    read_only: bool,
    scenario: &Scenario,
) -> Result<(), NoMemory>
    ensures before { text.new.before ≡ text.old.before }
    ensures ok { OnOk result (text.new.line ≡
        text.old.line ++ texts.line_words scenario.now (Line.Call method propagation read_only)) }
{
    push_method(text, "call ", method, scenario)?;
    named(text, " ", propagation_word(propagation))?;
    text.push(where_set(read_only, " read_only"))
}

#[tactic(auto, unfolding(stx_base::specs::Lines::line_words))]
fn push_plain(text: &mut LineText, method: MethodNo, scenario: &Scenario) -> Result<(), NoMemory>
    ensures before { text.new.before ≡ text.old.before }
    ensures ok { OnOk result (text.new.line ≡ text.old.line ++ texts.line_words scenario.now (Line.Plain method)) }
{
    push_method(text, "call ", method, scenario)?;
    text.push(" plain")
}

#[tactic(auto, unfolding(stx_base::specs::Lines::line_words))]
fn push_this(text: &mut LineText, method: MethodNo, scenario: &Scenario) -> Result<(), NoMemory>
    ensures before { text.new.before ≡ text.old.before }
    ensures ok { OnOk result (text.new.line ≡ text.old.line ++ texts.line_words scenario.now (Line.This method)) }
{
    push_method(text, "this ", method, scenario)
}

#[tactic(auto, unfolding(stx_base::specs::Lines::line_words))]
fn push_leave(
    text: &mut LineText,
    method: MethodNo,
    thrown: Option<ClassNo>,
    scenario: &Scenario,
) -> Result<(), NoMemory>
    ensures before { text.new.before ≡ text.old.before }
    ensures ok { OnOk result (text.new.line ≡
        text.old.line ++ texts.line_words scenario.now (Line.Leave method thrown)) }
{
    push_method(text, "leave ", method, scenario)?;
    match thrown {
        Some(class) => named(text, " throws ", class_name(scenario, class)),
        None => Ok(()),
    }
}

fn push_rules(text: &mut LineText, rollback: bool, winner: Option<u32>) -> Result<(), NoMemory>
    ensures before { text.new.before ≡ text.old.before }
    ensures ok { OnOk result (text.new.line ≡ text.old.line
        ++ (codes "rules " ++ texts.decision_word rollback ++ codes " by " ++ texts.winner_text winner)) }
{
    named(text, "rules ", decision_word(rollback))?;
    match winner {
        Some(place) => counted(text, " by ", place.into()),
        None => text.push(" by default"),
    }
}

fn push_opened(text: &mut LineText, kind: Kind, owns: bool) -> Result<(), NoMemory>
    ensures before { text.new.before ≡ text.old.before }
    ensures ok { OnOk result (text.new.line ≡ text.old.line
        ++ (codes "open " ++ texts.kind_word kind ++ texts.where_set owns (codes " sync"))) }
{
    named(text, "open ", kind_word(kind))?;
    text.push(where_set(owns, " sync"))
}

fn push_take(text: &mut LineText, connection: Option<u32>) -> Result<(), NoMemory>
    ensures before { text.new.before ≡ text.old.before }
    ensures ok { OnOk result (text.new.line ≡
        text.old.line ++ (codes "take " ++ texts.connection_text connection)) }
{
    match connection {
        Some(connection) => counted(text, "take ", connection.into()),
        None => text.push("take empty"),
    }
}

fn push_access(text: &mut LineText, access: Access, scenario: &Scenario) -> Result<(), NoMemory>
    ensures before { text.new.before ≡ text.old.before }
    ensures ok { OnOk result (text.new.line ≡ text.old.line ++ texts.access_text scenario.now access) }
{
    match access {
        Access::Read(row) => named(text, "read ", text_at(&scenario.row_names, row.0)),
        Access::Write(row, value) => push_write(text, text_at(&scenario.row_names, row.0), value),
        Access::Erase(row) => named(text, "erase ", text_at(&scenario.row_names, row.0)),
    }
}

fn push_write(text: &mut LineText, row: &str, value: i64) -> Result<(), NoMemory>
    ensures before { text.new.before ≡ text.old.before }
    ensures ok { OnOk result (text.new.line ≡
        text.old.line ++ (codes "write " ++ row.now ++ codes " " ++ signed_decimal value)) }
{
    named(text, "write ", row)?;
    text.push(" ")?;
    text.push_value(value)
}

fn push_answer(text: &mut LineText, answer: Answer) -> Result<(), NoMemory>
    ensures before { text.new.before ≡ text.old.before }
    ensures ok { OnOk result (text.new.line ≡ text.old.line ++ texts.answer_text answer) }
{
    match answer {
        Answer::Found(value) => {
            text.push(" found ")?;
            text.push_value(value)
        }
        Answer::Absent => text.push(" absent"),
        Answer::Done => text.push(" done"),
        Answer::Busy(tx) => counted(text, " busy ", tx.into()),
    }
}
