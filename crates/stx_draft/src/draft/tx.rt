// Transaction attributes and their rules.
ghost use Rattle.std.specs.Prelude.{◌≡◌, IfOk};
ghost use Rattle.toml.specs.View.{table_view};
ghost use Rattle.stx_draft.specs.Draft.{tx_in as tx_of_table, tx_at as tx_of, rule_of as rule_numbered, matched_by as matched_numbered};

use crate::parts::{flag_at, table_at, text_at, texts_at};
use std::alloc::Global;
use stx_names::{Matched, Numbered, RuleSentence, propagation_in, rule_in};
use stx_scenario::{List, Name, NoMemory, Propagation, Rule, RuleBy, TxAttr};
use toml::Table;

/// The attribute of a bean or a method, which may be missing.
pub fn tx_at(alloc: Global, names: &Numbered, table: &Table) -> Result<Option<TxAttr>, NoMemory>
    ensures { IfOk result (λ tx. tx ≡ tx_of names.now (table_view table.now)) }
{
    match table_at(table, "tx") {
        Some(tx) => Ok(Some(tx_in(alloc, names, tx)?)),
        None => Ok(None),
    }
}

fn tx_in(alloc: Global, names: &Numbered, table: &Table) -> Result<TxAttr, NoMemory>
    ensures { IfOk result (λ tx. tx ≡ tx_of_table names.now (table_view table.now)) }
{
    let propagation = propagation_in(text_at(table, "propagation"));
    Ok(TxAttr {
        propagation: propagation.unwrap_or(Propagation::Required),
        read_only: flag_at(table, "read_only", false),
        rules: rules_in(alloc, names, table)?,
    })
}

fn rules_in(alloc: Global, names: &Numbered, table: &Table) -> Result<List<Rule>, NoMemory>
    ensures { IfOk result (λ rules. rules ≡ (tx_of_table names.now (table_view table.now)).rules) }
{
    let texts = texts_at(alloc, table, "rules")?;
    let mut rules = List::new(alloc);
    for text in texts.as_slice() {
        if let Some(rule) = rule_in(text) {
            rules.push(rule_of(alloc, names, &rule)?)?;
        }
    }
    Ok(rules)
}

fn rule_of(alloc: Global, names: &Numbered, rule: &RuleSentence<'_>) -> Result<Rule, NoMemory>
    ensures { IfOk result (λ numbered. numbered ≡ rule_numbered names.now rule.now) }
{
    Ok(Rule {
        rollback: rule.rollback,
        by: matched_by(alloc, names, &rule.by)?,
    })
}

fn matched_by(alloc: Global, names: &Numbered, matched: &Matched<'_>) -> Result<RuleBy, NoMemory>
    ensures { IfOk result (λ by. by ≡ matched_numbered names.now matched.now) }
{
    match matched {
        Matched::Class(class) => Ok(RuleBy::Class(names.class_no(class.as_str()))),
        Matched::Pattern(pattern) => {
            let pattern = Name::new(alloc, pattern.as_str())?;
            Ok(RuleBy::Pattern(pattern))
        }
    }
}
