// Statements, by the numbers of what they name.
ghost use Rattle.std.specs.Prelude.{◌≡◌, ◌∷◌, [], IfOk, OnOk, option_copied, option_and_then};
ghost use Rattle.toml.specs.Data.{as_str};
ghost use Rattle.toml.specs.View.{view, table_view};
ghost use Rattle.stx_names.specs.declared.sentence.Sentence.{Sentence as Said};
ghost use Rattle.stx_names.specs.Numbers.{row_no as row_number};
ghost use Rattle.stx_names.specs.Sentences.{sentence_in as sentence_of_text};
ghost use Rattle.stx_draft.specs.Draft.{sentences_at as sentences_of, body_at as body_of, stated as stated_of};
ghost use Rattle.stx_draft.specs.inner.Growing.{grown, Lasts};

use crate::parts::array_at;
use std::alloc::Global;
use stx_names::{Numbered, Sentence, Word, sentence_in};
use stx_scenario::{List, NoMemory, RowNo, Stmt};
use toml::{Table, Value};

/// The statement that a value is, if it is one.
fn sentence_of(value: &Value) -> Option<Sentence<'_>>
    ensures { result ≡ option_and_then sentence_of_text (as_str (view value.now)) }
{
    match value.as_str() {
        Some(text) => sentence_in(text),
        None => None,
    }
}

/// The statements under a key, in a method of a bean or in a callback. The rows that they name go to the end of the names
/// first.
pub fn body_at(
    alloc: Global,
    names: &mut Numbered,
    bean: Option<&str>,
    key: &str,
    table: &Table,
) -> Result<List<Stmt>, NoMemory>
    ensures names { OnOk result (names.new ≡ grown names.old (sentences_of key.now (table_view table.now))) }
    ensures body { IfOk result (Lasts (λ names. body_of names (option_copied bean.entry) key.now (table_view table.now)) names.new) }
{
    let mut body = List::new(alloc);
    for value in array_at(table, key) {
        if let Some(sentence) = sentence_of(value) {
            body.push(stated(alloc, names, bean, &sentence)?)?;
        }
    }
    Ok(body)
}

/// A statement by the numbers of what it names. The row that it names goes to the end of the names first, unless it is
/// there.
fn stated(
    alloc: Global,
    names: &mut Numbered,
    bean: Option<&str>,
    sentence: &Sentence<'_>,
) -> Result<Stmt, NoMemory>
    ensures names { OnOk result (names.new ≡ grown names.old (sentence.now ∷ [])) }
    ensures statement { IfOk result (λ statement. statement ≡ stated_of names.new (option_copied bean.entry) sentence.now) }
{
    Ok(match sentence {
        Sentence::Read(row) => Stmt::Read(row_for(alloc, names, row)?),
        Sentence::Write(row, value) => Stmt::Write(row_for(alloc, names, row)?, *value),
        Sentence::Erase(row) => Stmt::Erase(row_for(alloc, names, row)?),
        Sentence::Add(row, value) => Stmt::Add(row_for(alloc, names, row)?, *value),
        Sentence::Need(row, value) => Stmt::Need(row_for(alloc, names, row)?, *value),
        Sentence::Call {
            bean,
            method,
            catch,
        } => Stmt::Call {
            method: names.method_no(alloc, bean.as_str(), method.as_str())?,
            catch: names.catch_no(catch),
        },
        Sentence::This { method, catch } => Stmt::This {
            method: names.own_method_no(alloc, bean, method.as_str())?,
            catch: names.catch_no(catch),
        },
        Sentence::Throw(class) => Stmt::Throw(names.class_no(class.as_str())),
        Sentence::Mark => Stmt::Mark,
        Sentence::Publish(event) => Stmt::Publish(names.event_no(event.as_str())),
        Sentence::Register(sync) => Stmt::Register(names.sync_no(sync.as_str())),
    })
}

/// The number of a row, which goes to the end of the rows unless it is there.
fn row_for(alloc: Global, names: &mut Numbered, row: &Word<'_>) -> Result<RowNo, NoMemory>
    ensures names { OnOk result (names.new ≡ grown names.old (Said.Read row.now ∷ [])) }
    ensures row { IfOk result (λ number. number ≡ row_number names.new row.now) }
{
    Ok(RowNo(names.rows.number_for(alloc, row.as_str())?))
}
