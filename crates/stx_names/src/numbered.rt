// The names to which statements and rules refer, with their numbers.
ghost use Rattle.std.specs.Prelude.{◌≡◌, IfOk, option_copied};
ghost use Rattle.stx_names.specs.Numbers.{class_no as class_number, row_no as row_number, method_no as method_number, own_method_no as own_method_number, catch_no as catch_number, number_of};

use crate::named::method_text;
use crate::numbers::{NOTHING, Numbers};
use crate::sentence::Word;
use std::alloc::Global;
use stx_scenario::{BeanNo, ClassNo, EventNo, MethodNo, NoMemory, RowNo, SyncNo};

/// The names of each group in the order of their numbers: also the built-in classes, and the rows that only statements
/// name. A method's is its bean's and its own.
#[derive(Drop)]
pub struct Numbered {
    pub events: Numbers,
    pub rows: Numbers,
    pub classes: Numbers,
    pub beans: Numbers,
    pub methods: Numbers,
    pub syncs: Numbers,
}

impl Numbered {
    pub fn event_no(&self, event: &str) -> EventNo
        ensures { result.0 ≡ number_of self.now.events event.now }
    {
        EventNo(self.events.number_of(event))
    }

    pub fn row_no(&self, row: &str) -> RowNo
        ensures { result ≡ row_number self.now row.now }
    {
        RowNo(self.rows.number_of(row))
    }

    pub fn class_no(&self, class: &str) -> ClassNo
        ensures { result ≡ class_number self.now class.now }
    {
        ClassNo(self.classes.number_of(class))
    }

    pub fn bean_no(&self, bean: &str) -> BeanNo
        ensures { result.0 ≡ number_of self.now.beans bean.now }
    {
        BeanNo(self.beans.number_of(bean))
    }

    pub fn sync_no(&self, sync: &str) -> SyncNo
        ensures { result.0 ≡ number_of self.now.syncs sync.now }
    {
        SyncNo(self.syncs.number_of(sync))
    }

    /// The number of a method of a bean, which has to be there too.
    pub fn method_no(&self, alloc: Global, bean: &str, method: &str) -> Result<MethodNo, NoMemory>
        ensures { IfOk result (λ number. number ≡ method_number self.now (bean.now, method.now)) }
    {
        if !self.beans.has(bean) {
            return Ok(MethodNo(NOTHING));
        }
        let text = method_text(alloc, bean, method)?;
        Ok(MethodNo(self.methods.number_of(text.as_str())))
    }

    /// The number of a method of the bean whose method holds the statement. In a callback there is no such bean.
    pub fn own_method_no(
        &self,
        alloc: Global,
        bean: Option<&str>,
        method: &str,
    ) -> Result<MethodNo, NoMemory>
        ensures { IfOk result (λ number. number ≡ own_method_number self.now (option_copied bean.entry) method.now) }
    {
        let Some(bean) = bean else {
            return Ok(MethodNo(NOTHING));
        };
        let text = method_text(alloc, bean, method)?;
        Ok(MethodNo(self.methods.number_of(text.as_str())))
    }

    /// The number of the class that is caught, if any.
    pub fn catch_no(&self, catch: &Option<Word<'_>>) -> Option<ClassNo>
        ensures { result ≡ catch_number self.now catch.now }
    {
        match catch {
            Some(class) => Some(self.class_no(class.as_str())),
            None => None,
        }
    }
}
