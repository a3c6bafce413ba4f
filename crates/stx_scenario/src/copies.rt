// Equal values of an attribute, and of the rules and names in it, with memory of their own.
ghost use Rattle.std.specs.Prelude.{◌≡◌, IfOk};

use crate::{List, Name, NoMemory, Rule, RuleBy, TxAttr};
use std::alloc::Global;

impl Name {
    /// A name of the same text.
    pub fn copy(&self, alloc: Global) -> Result<Name, NoMemory>
        ensures { IfOk result (λ copy. copy ≡ self.now) }
    {
        Name::new(alloc, self.as_str())
    }
}

impl RuleBy {
    /// A rule's part that matches the same classes.
    pub fn copy(&self, alloc: Global) -> Result<RuleBy, NoMemory>
        ensures { IfOk result (λ copy. copy ≡ self.now) }
    {
        match self {
            RuleBy::Class(class) => Ok(RuleBy::Class(*class)),
            RuleBy::Pattern(part) => Ok(RuleBy::Pattern(part.copy(alloc)?)),
        }
    }
}

impl Rule {
    /// An equal rule.
    pub fn copy(&self, alloc: Global) -> Result<Rule, NoMemory>
        ensures { IfOk result (λ copy. copy ≡ self.now) }
    {
        Ok(Rule {
            rollback: self.rollback,
            by: self.by.copy(alloc)?,
        })
    }
}

impl TxAttr {
    /// An equal attribute.
    pub fn copy(&self, alloc: Global) -> Result<TxAttr, NoMemory>
        ensures { IfOk result (λ copy. copy ≡ self.now) }
    {
        Ok(TxAttr {
            propagation: self.propagation,
            read_only: self.read_only,
            rules: copy_of_rules(alloc, &self.rules)?,
        })
    }
}

fn copy_of_rules(alloc: Global, rules: &List<Rule>) -> Result<List<Rule>, NoMemory>
    ensures { IfOk result (λ copies. copies ≡ rules.now) }
{
    let mut copies = List::new(alloc);
    for rule in rules.as_slice() {
        copies.push(rule.copy(alloc)?)?;
    }
    Ok(copies)
}
