// The walk over a document: what the stages on single places refuse in it, in walk order.
ghost use Rattle.std.specs.Prelude.{◌≡◌, ◌++◌, IfOk, OnOk, map};
ghost use Rattle.toml.specs.View.{view, table_view, items_view};
ghost use Rattle.stx_walk.specs.declared.schema.Kind.{Kind as KindData};
ghost use Rattle.stx_refusals.specs.Faults.{refused, entry as path_of_entry};
ghost use Rattle.stx_walk.specs.inner.Places.{holder_path, place_path as path_of_place};
ghost use Rattle.stx_walk.specs.Schema.{key_of, leaf_stage as stage_of};
ghost use Rattle.stx_walk.specs.Walk.{walk, missing, each_item, entry_faults as faults_of_entry, value_faults as faults_of_value, key_faults as faults_of_key, key_text as text_of_key, is_known as known_test, table_faults as faults_of_table, document_faults as faults_of_document};

use crate::leaf::{count_stage, leaf_stage, unless};
use crate::place::{Holder, Place, place_path};
use crate::schema::{Field, Kind, Leaf, Shape, fields_of, root_fields};
use std::alloc::Global;
use stx_names::is_name;
use stx_refusals::{Fault, Stage, refuse};
use stx_scenario::{List, NoMemory};
use toml::{Table, Value};

/// What a walk refuses so far, and where its paths take their memory.
#[derive(Drop)]
struct Findings {
    alloc: Global,
    faults: List<Fault>,
}

/// All that the stages on single places refuse in a document.
#[tactic(auto, unfolding(crate::specs::Walk::document_faults))]
pub fn document_faults(alloc: Global, root: &Table) -> Result<List<Fault>, NoMemory>
    ensures { IfOk result (λ faults. faults ≡ faults_of_document (table_view root.now)) }
{
    let faults = List::new(alloc);
    let mut findings = Findings { alloc, faults };
    let holder = Holder { path: "", at: None };
    findings.table_faults(root_fields(), holder, root)?;
    let Findings { faults, alloc: _ } = findings;
    Ok(faults)
}

// Each method adds what is refused in its part of the document.
impl Findings {
    /// What is refused in a table: at the keys that it may have, and then at those that it may not.
    #[cycle(walk)]
    fn table_faults(
        &mut self,
        fields: &[Field],
        holder: Holder<'_>,
        table: &Table,
    ) -> Result<(), NoMemory>
        ensures { OnOk result (self.new.faults ≡ self.old.faults ++ faults_of_table walk (map key_of fields.now) (holder_path holder.entry) (table_view table.now)) }
    {
        for field in fields {
            self.field_faults(field, holder, table)?;
        }
        for key in table.keys() {
            let key = key.as_str();
            let place = Place {
                holder,
                key: Some(key_text(key)),
            };
            let passed = is_known(fields, key);
            self.refuse_at(unless(passed, Stage::UnknownKey), place)?;
        }
        Ok(())
    }

    #[cycle(walk)]
    fn field_faults(
        &mut self,
        field: &Field,
        holder: Holder<'_>,
        table: &Table,
    ) -> Result<(), NoMemory>
        ensures { OnOk result (self.new.faults ≡ self.old.faults ++ faults_of_key walk (holder_path holder.entry) (table_view table.now) (key_of field.now)) }
    {
        let place = Place {
            holder,
            key: Some(field.key),
        };
        match table.get(field.key) {
            Some(value) => self.value_faults(field.kind, place, value),
            None => self.refuse_at(missing_stage(field.required), place),
        }
    }

    #[cycle(walk)]
    fn value_faults(&mut self, kind: Kind, place: Place<'_>, value: &Value) -> Result<(), NoMemory>
        ensures { OnOk result (self.new.faults ≡ self.old.faults ++ faults_of_value walk kind (path_of_place place.entry) (view value.now)) }
    {
        match kind {
            Kind::Value(leaf) => self.refuse_at(leaf_stage(leaf, value), place),
            Kind::Values(leaf, most) => self.values_faults(leaf, most, place, value),
            Kind::Table(shape) => {
                let path = place_path(self.alloc, place)?;
                let path = path.as_str();
                self.entry_faults(shape, Holder { path, at: None }, value)
            }
            Kind::Tables(shape, least, most) => {
                self.tables_faults(shape, (least, most), place, value)
            }
        }
    }

    /// What is refused in a value that has to be an array of single values.
    fn values_faults(
        &mut self,
        leaf: Leaf,
        most: usize,
        place: Place<'_>,
        value: &Value,
    ) -> Result<(), NoMemory>
        ensures { OnOk result (self.new.faults ≡ self.old.faults ++ faults_of_value walk (KindData.Values leaf most) (path_of_place place.entry) (view value.now)) }
    {
        let Some(items) = value.as_array() else {
            return self.refuse_at(Some(Stage::WrongType), place);
        };
        self.refuse_at(count_stage(0, most, items.len()), place)?;
        let path = place_path(self.alloc, place)?;
        self.items_faults(leaf, path.as_str(), items)
    }

    fn items_faults(&mut self, leaf: Leaf, path: &str, items: &[Value]) -> Result<(), NoMemory>
        ensures { OnOk result (self.new.faults ≡ self.old.faults ++ each_item (λ n d. refused (path_of_entry path.now n) (stage_of leaf d)) 0 (items_view items.now)) }
    {
        for (at, item) in items.iter().enumerate() {
            let holder = Holder { path, at: Some(at) };
            self.refuse_at(leaf_stage(leaf, item), Place { holder, key: None })?;
        }
        Ok(())
    }

    /// What is refused in a value that has to be an array of tables.
    #[cycle(walk)]
    fn tables_faults(
        &mut self,
        shape: Shape,
        bounds: (usize, usize),
        place: Place<'_>,
        value: &Value,
    ) -> Result<(), NoMemory>
        ensures { OnOk result (self.new.faults ≡ self.old.faults ++ faults_of_value walk (KindData.Tables shape bounds.0 bounds.1) (path_of_place place.entry) (view value.now)) }
    {
        match value {
            Value::Array(items) => {
                self.refuse_at(count_stage(bounds.0, bounds.1, items.len()), place)?;
                let path = place_path(self.alloc, place)?;
                let path = path.as_str();
                for (at, item) in items.iter().enumerate() {
                    self.entry_faults(shape, Holder { path, at: Some(at) }, item)?;
                }
                Ok(())
            }
            _ => self.refuse_at(Some(Stage::WrongType), place),
        }
    }

    /// What is refused in a value that has to be a table.
    #[cycle(walk)]
    fn entry_faults(
        &mut self,
        shape: Shape,
        holder: Holder<'_>,
        value: &Value,
    ) -> Result<(), NoMemory>
        ensures { OnOk result (self.new.faults ≡ self.old.faults ++ faults_of_entry walk shape (holder_path holder.entry) (view value.now)) }
    {
        match value {
            Value::Table(inner) => self.table_faults(fields_of(shape), holder, inner),
            _ => self.refuse_at(Some(Stage::WrongType), Place { holder, key: None }),
        }
    }

    /// Refuses a place, where there is a stage that does.
    fn refuse_at(&mut self, stage: Option<Stage>, place: Place<'_>) -> Result<(), NoMemory>
        ensures { OnOk result (self.new.faults ≡ self.old.faults ++ refused (path_of_place place.entry) stage) }
    {
        let Some(stage) = stage else {
            return Ok(());
        };
        let path = place_path(self.alloc, place)?;
        refuse(&mut self.faults, stage, path)
    }
}

fn missing_stage(required: bool) -> Option<Stage>
    ensures { result ≡ missing required }
{
    unless(!required, Stage::Missing)
}

fn is_known(fields: &[Field], key: &str) -> bool
    ensures { result ≡ known_test (map key_of fields.now) key.now }
{
    fields.iter().any(|field| field.key == key)
}

/// How a path writes a key: one that isn't a name as `?`.
fn key_text(key: &str) -> &str
    ensures { result.now ≡ text_of_key key.now }
{
    if is_name(key) { key } else { "?" }
}
