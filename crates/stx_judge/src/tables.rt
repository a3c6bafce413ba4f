// What several tables have: names, attributes and the statements of bodies.
ghost use Rattle.std.specs.Prelude.{◌≡◌, ◌++◌, ◌&&◌, codes, OnOk, IfOk};
ghost use Rattle.stx_scenario.specs.Names.{is_name as is_a_name};
ghost use Rattle.stx_base.specs.Valid.{is_method as is_a_method, names_known, own_known};
ghost use Rattle.stx_judge.specs.Judge.{name_faults, body_faults, callback_body_faults, rules_faults, tx_faults, rule_stage};
ghost use Rattle.stx_refusals.specs.declared.fault.Stage.{Stage as Kind};
ghost use Rattle.stx_refusals.specs.Faults.{refused, unless, under as path_under, entry as path_of_entry};

use crate::checks::{Checks, Faults, check_array};
use crate::references::{is_class, is_method, names_known, own_known};
use std::alloc::Global;
use stx_names::{is_name, is_pattern};
use stx_refusals::{Argument, Stage, check_entry, check_key, under};
use stx_scenario::{
    BeanNo, List, MOST_RULES, MOST_STATEMENTS, MethodNo, Name, NoMemory, Rule, RuleBy, Scenario,
    Stmt, TxAttr,
};

/// A table or an array of a scenario, by its path, and where paths take their memory.
#[derive(Drop)]
pub struct Place<'a> {
    pub alloc: Global,
    pub scenario: &'a Scenario,
    pub path: Argument,
}

/// The body at a path, of a method of a bean.
#[derive(Drop)]
struct MethodBody<'a> {
    place: Place<'a>,
    bean: BeanNo,
}

impl<'a> Place<'a> {
    /// The place under a key of the table.
    pub fn under(&self, key: &str) -> Result<Place<'a>, NoMemory>
        ensures scenario { IfOk result (λ inner. inner.scenario.now ≡ self.now.scenario.now) }
        ensures path { IfOk result (λ inner. inner.path ≡ path_under self.now.path key.now) }
    {
        let path = under(self.alloc, self.path.as_str(), key)?;
        let place = Place {
            alloc: self.alloc,
            scenario: self.scenario,
            path,
        };
        Ok(place)
    }

    /// Refuses the value under a key of the table, unless it passed.
    pub fn check_key(
        &self,
        faults: &mut Faults,
        key: &str,
        passed: bool,
        stage: Stage,
    ) -> Result<(), NoMemory>
        ensures { OnOk result (faults.new ≡ faults.old ++ refused (path_under self.now.path key.now) (unless passed stage)) }
    {
        check_key(self.alloc, faults, self.path.as_str(), key, passed, stage)
    }

    /// Refuses an entry of the array, unless it passed.
    pub fn check_entry(
        &self,
        faults: &mut Faults,
        at: usize,
        passed: bool,
        stage: Stage,
    ) -> Result<(), NoMemory>
        ensures { OnOk result (faults.new ≡ faults.old ++ refused (path_of_entry self.now.path at) (unless passed stage)) }
    {
        check_entry(self.alloc, faults, self.path.as_str(), at, passed, stage)
    }

    /// The name of the table.
    pub fn check_name(&self, faults: &mut Faults, name: &Name) -> Result<(), NoMemory>
        ensures { OnOk result (faults.new ≡ faults.old ++ name_faults self.now.path name.now) }
    {
        let passed = is_name(name.as_str());
        self.check_key(faults, "name", passed, Stage::BadName)
    }

    /// The rules of the table's attribute, where it has one.
    pub fn check_tx(&self, faults: &mut Faults, tx: &Option<TxAttr>) -> Result<(), NoMemory>
        ensures { OnOk result (faults.new ≡ faults.old ++ tx_faults self.now.scenario.now self.now.path tx.now) }
    {
        let tx = match tx {
            Some(tx) => tx,
            None => return Ok(()),
        };
        let array = self.under("tx")?.under("rules")?;
        let path = array.path.as_str();
        let rules = tx.rules.as_slice();
        check_array(self.alloc, faults, path, MOST_RULES, &array, rules)
    }

    /// The body of a method of a bean.
    pub fn check_body(
        &self,
        faults: &mut Faults,
        bean: BeanNo,
        body: &List<Stmt>,
    ) -> Result<(), NoMemory>
        ensures { OnOk result (faults.new ≡ faults.old ++ body_faults self.now.scenario.now bean (path_under self.now.path (codes "body")) body.now) }
    {
        let place = self.under("body")?;
        let statements = MethodBody { place, bean };
        let path = statements.place.path.as_str();
        let body = body.as_slice();
        check_array(self.alloc, faults, path, MOST_STATEMENTS, &statements, body)
    }

    /// The body of a callback, under a key.
    pub fn check_callback(
        &self,
        faults: &mut Faults,
        key: &str,
        body: &List<Stmt>,
    ) -> Result<(), NoMemory>
        ensures { OnOk result (faults.new ≡ faults.old ++ callback_body_faults self.now.scenario.now (path_under self.now.path key.now) body.now) }
    {
        let statements = self.under(key)?;
        let path = statements.path.as_str();
        let body = body.as_slice();
        check_array(self.alloc, faults, path, MOST_STATEMENTS, &statements, body)
    }
}

// The names of the events.
impl<'a> Checks<Name> for Place<'a> {
    ghost finds = { λ array n name. refused (path_of_entry array.path n) (unless (is_a_name name) Kind.BadName) };

    fn check(&self, faults: &mut Faults, at: usize, name: &Name) -> Result<(), NoMemory> {
        let passed = is_name(name.as_str());
        self.check_entry(faults, at, passed, Stage::BadName)
    }
}

impl<'a> Checks<Rule> for Place<'a> {
    ghost finds = { λ array n rule. refused (path_of_entry array.path n) (rule_stage array.scenario.now rule.by) };

    fn check(&self, faults: &mut Faults, at: usize, rule: &Rule) -> Result<(), NoMemory> {
        match &rule.by {
            RuleBy::Class(class) => {
                let passed = is_class(self.scenario, *class);
                self.check_entry(faults, at, passed, Stage::UnknownRef)
            }
            RuleBy::Pattern(pattern) => {
                let passed = is_pattern(pattern.as_str());
                self.check_entry(faults, at, passed, Stage::BadWord)
            }
        }
    }
}

// The calls of a client.
impl<'a> Checks<MethodNo> for Place<'a> {
    ghost finds = { λ array n m. refused (path_of_entry array.path n) (unless (is_a_method array.scenario.now m) Kind.UnknownRef) };

    fn check(&self, faults: &mut Faults, at: usize, method: &MethodNo) -> Result<(), NoMemory> {
        let passed = is_method(self.scenario, *method);
        self.check_entry(faults, at, passed, Stage::UnknownRef)
    }
}

// The statements of a callback.
impl<'a> Checks<Stmt> for Place<'a> {
    ghost finds = { λ array n s. refused (path_of_entry array.path n) (unless (names_known array.scenario.now s) Kind.UnknownRef) };

    fn check(&self, faults: &mut Faults, at: usize, statement: &Stmt) -> Result<(), NoMemory> {
        let passed = names_known(self.scenario, *statement);
        self.check_entry(faults, at, passed, Stage::UnknownRef)
    }
}

impl<'a> Checks<Stmt> for MethodBody<'a> {
    ghost finds = { λ body n s. refused (path_of_entry body.place.path n) (unless (names_known body.place.scenario.now s && own_known body.place.scenario.now body.bean s) Kind.UnknownRef) };

    fn check(&self, faults: &mut Faults, at: usize, statement: &Stmt) -> Result<(), NoMemory> {
        let passed = is_known_in(self.place.scenario, self.bean, *statement);
        self.place
            .check_entry(faults, at, passed, Stage::UnknownRef)
    }
}

fn is_known_in(scenario: &Scenario, bean: BeanNo, statement: Stmt) -> bool
    ensures { result ≡ (names_known scenario.now statement && own_known scenario.now bean statement) }
{
    names_known(scenario, statement) && own_known(scenario, bean, statement)
}
