// What the tables of a document state, by the numbers of what they name.
ghost use Rattle.std.specs.Prelude.{◌≡◌, ◌++◌, IfOk, OnOk, List as Elements, map, codes};
ghost use Rattle.std.specs.Prelude.{None, Some};
ghost use Rattle.toml.specs.Data.{Members};
ghost use Rattle.toml.specs.View.{table_view};
ghost use Rattle.stx_names.specs.declared.numbered.Numbered.{Numbered as Names};
ghost use Rattle.stx_draft.specs.Draft.{class_in, bean_in, method_in_table, sync_in, listener_in, calls_in, sentences_at, callback_sentences, called_no as called_number};
ghost use Rattle.stx_draft.specs.inner.Growing.{grown, Lasts};
ghost use Rattle.stx_names.specs.declared.sentence.Sentence.{Sentence as Said};
ghost use Rattle.stx_names.specs.Sentences.{method_in as method_of};

use super::settings::order_at;
use super::statements::body_at;
use super::tx::tx_at;
use crate::parts::{flag_at, text_at, texts_at};
use std::alloc::Global;
use stx_names::{NOTHING, Numbered, method_in, phase_in};
use stx_scenario::{
    Bean, Calls, ClassDecl, List, Listener, Method, MethodNo, Name, NoMemory, Phase, SyncDecl,
};
use toml::Table;

/// What a table of an array may state.
pub trait Drafted: Sized {
    ghost stated: { Names → Members → Self };

    /// What a table states, where names have these numbers.
    fn from_table(alloc: Global, names: &Numbered, table: &Table) -> Result<Self, NoMemory>
        ensures { IfOk result (λ drafted. drafted ≡ stated names.now (table_view table.now)) };
}

/// What a table with statements may state.
pub trait Bodied: Sized {
    /// The statements in a table, in its order.
    ghost said: { Members → Elements Said };

    ghost states: { Names → Members → Self };

    /// What a table states, where names have these numbers. The rows that its statements name go to the end of the names
    /// first.
    fn from_bodies(alloc: Global, names: &mut Numbered, table: &Table) -> Result<Self, NoMemory>
        ensures names { OnOk result (names.new ≡ grown names.old (said (table_view table.now))) }
        ensures stated { IfOk result (Lasts (λ names. states names (table_view table.now)) names.new) };
}

/// What tables state, after what is there already.
pub fn draft_each<T: Drafted + Drop>(
    alloc: Global,
    names: &Numbered,
    tables: &[&Table],
    before: List<T>,
) -> Result<List<T>, NoMemory>
    ensures { IfOk result (λ all. all ≡ before ++ map (λ table. T.stated names.now (table_view table.now)) tables.now) }
{
    let mut all = before;
    for table in tables {
        all.push(T::from_table(alloc, names, table)?)?;
    }
    Ok(all)
}

impl Drafted for ClassDecl {
    ghost stated = { class_in };

    fn from_table(alloc: Global, names: &Numbered, table: &Table) -> Result<Self, NoMemory> {
        Ok(ClassDecl {
            name: Name::new(alloc, text_at(table, "name"))?,
            parent: Some(names.class_no(text_at(table, "parent"))),
        })
    }
}

impl Drafted for Bean {
    ghost stated = { bean_in };

    fn from_table(alloc: Global, names: &Numbered, table: &Table) -> Result<Self, NoMemory> {
        Ok(Bean {
            name: Name::new(alloc, text_at(table, "name"))?,
            tx: tx_at(alloc, names, table)?,
        })
    }
}

impl Bodied for Method {
    ghost said = { sentences_at (codes "body") };

    ghost states = { method_in_table };

    fn from_bodies(alloc: Global, names: &mut Numbered, table: &Table) -> Result<Self, NoMemory> {
        let bean = text_at(table, "bean");
        Ok(Method {
            bean: names.bean_no(bean),
            name: Name::new(alloc, text_at(table, "name"))?,
            tx: tx_at(alloc, names, table)?,
            body: body_at(alloc, names, Some(bean), "body", table)?,
        })
    }
}

impl Bodied for SyncDecl {
    ghost said = { callback_sentences };

    ghost states = { sync_in };

    fn from_bodies(alloc: Global, names: &mut Numbered, table: &Table) -> Result<Self, NoMemory> {
        Ok(SyncDecl {
            name: Name::new(alloc, text_at(table, "name"))?,
            order: order_at(table),
            before_commit: body_at(alloc, names, None, "before_commit", table)?,
            before_completion: body_at(alloc, names, None, "before_completion", table)?,
            after_commit: body_at(alloc, names, None, "after_commit", table)?,
            after_completion: body_at(alloc, names, None, "after_completion", table)?,
        })
    }
}

impl Bodied for Listener {
    ghost said = { sentences_at (codes "body") };

    ghost states = { listener_in };

    fn from_bodies(alloc: Global, names: &mut Numbered, table: &Table) -> Result<Self, NoMemory> {
        let phase = phase_in(text_at(table, "phase"));
        Ok(Listener {
            name: Name::new(alloc, text_at(table, "name"))?,
            event: names.event_no(text_at(table, "event")),
            phase: phase.unwrap_or(Phase::AfterCommit),
            order: order_at(table),
            fallback: flag_at(table, "fallback", false),
            body: body_at(alloc, names, None, "body", table)?,
        })
    }
}

impl Drafted for Calls {
    ghost stated = { calls_in };

    fn from_table(alloc: Global, names: &Numbered, table: &Table) -> Result<Self, NoMemory> {
        let texts = texts_at(alloc, table, "calls")?;
        let mut calls = List::new(alloc);
        for text in texts.as_slice() {
            calls.push(called(alloc, names, text)?)?;
        }
        Ok(calls)
    }
}

/// The number of the method that a call names. A text that isn't `BEAN.METHOD` names nothing.
fn called(alloc: Global, names: &Numbered, text: &str) -> Result<MethodNo, NoMemory>
    ensures { IfOk result (λ number. number ≡ called_number names.now (method_of text.now)) }
{
    match method_in(text) {
        Some((bean, method)) => names.method_no(alloc, bean.as_str(), method.as_str()),
        None => Ok(MethodNo(NOTHING)),
    }
}
