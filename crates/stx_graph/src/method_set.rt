// A set of methods that keeps the order in which they came.
ghost use Rattle.std.specs.Prelude.{◌≡◌, ◌<◌, [], length, fold, IfOk, OnOk};
ghost use Rattle.stx_base.specs.Weight.{has_method, MethodsInRange};
ghost use Rattle.stx_graph.specs.inner.Rows.{IsMarked, with_method};

use std::alloc::Global;
use stx_scenario::{MethodNo, NoMemory};

/// Methods, each once, in the order in which they came.
#[derive(Drop)]
pub(crate) struct MethodSet {
    pub order: Vec<MethodNo>,
    /// Whether each method is in the set, by its number.
    pub has: Vec<bool>,
    ghost marked: { IsMarked has.items order.items },
}

impl MethodSet {
    /// The empty set, for methods with a number below `bound`.
    pub fn new(alloc: Global, bound: usize) -> Result<MethodSet, NoMemory>
        ensures empty { IfOk result (λ set. set.order.items ≡ []) }
        ensures bound { IfOk result (λ set. length set.has.items ≡ bound) }
    {
        Ok(MethodSet {
            order: Vec::new(alloc),
            has: vec![in alloc; false; bound]?,
        })
    }

    /// Adds a method, unless it is in the set.
    pub fn add(&mut self, method: MethodNo) -> Result<(), NoMemory>
        requires { method.0 < length self.old.has.items }
        ensures order { OnOk result (self.new.order.items ≡ with_method self.old.order.items method) }
        ensures bound { length self.new.has.items ≡ length self.old.has.items }
    {
        if !self.has[method.0 as usize] {
            self.order.push(method)?;
            self.has[method.0 as usize] = true;
        }
        Ok(())
    }

    /// Adds several methods.
    pub fn add_all(&mut self, methods: &[MethodNo]) -> Result<(), NoMemory>
        requires { MethodsInRange (length self.old.has.items) methods.now }
        ensures order { OnOk result (self.new.order.items ≡ fold with_method self.old.order.items methods.now) }
        ensures bound { length self.new.has.items ≡ length self.old.has.items }
    {
        for method in methods {
            self.add(*method)?;
        }
        Ok(())
    }

    /// Whether the method is in the set.
    pub fn contains(&self, method: MethodNo) -> bool
        requires { method.0 < length self.now.has.items }
        ensures { result ≡ has_method self.now.order.items method }
    {
        self.has[method.0 as usize]
    }
}
