// The beans and methods beside the payments, and the listener.
ghost use Rattle.std.specs.Prelude.{◌≡◌, ◌++◌, ◌*◌, IfOk, OnOk};
ghost use Rattle.stx_load.specs.Draws.{after};
ghost use Rattle.stx_load.specs.Generated as defined;

use crate::draws::Draws;
use crate::payments::{next_payment, payment_method};
use crate::rows::{AUDIT_ROW, MAILS_ROW, STOCK_ROW};
use std::alloc::Global;
use stx_scenario::{
    Bean, BeanNo, EventNo, List, Listener, Method, MethodNo, Name, NoMemory, Phase, Propagation,
    Stmt, TxAttr,
};

/// How many payments there are, the first methods of all.
pub(crate) const PAYMENTS: u32 = 64;

pub(crate) const SHOP: BeanNo = BeanNo(0);

const STOCK: BeanNo = BeanNo(1);

const AUDIT: BeanNo = BeanNo(2);

pub(crate) const PICK: MethodNo = MethodNo(64);

pub(crate) const NOTE: MethodNo = MethodNo(65);

const MAIL: MethodNo = MethodNo(66);

pub(crate) const PAID: EventNo = EventNo(0);

/// The beans, each with an attribute for its methods.
pub(crate) fn beans(alloc: Global) -> Result<List<Bean>, NoMemory>
    ensures { IfOk result (λ beans. beans ≡ defined.beans) }
{
    let mut beans = List::new(alloc);
    beans.push(bean_with(alloc, "shop", Propagation::Required)?)?;
    beans.push(bean_with(alloc, "stock", Propagation::Nested)?)?;
    beans.push(bean_with(alloc, "audit", Propagation::RequiresNew)?)?;
    Ok(beans)
}

fn bean_with(alloc: Global, name: &str, propagation: Propagation) -> Result<Bean, NoMemory>
    ensures { IfOk result (λ bean. bean ≡ defined.bean_with name.now propagation) }
{
    let tx = TxAttr {
        propagation,
        read_only: false,
        rules: List::new(alloc),
    };
    Ok(Bean {
        name: Name::new(alloc, name)?,
        tx: Some(tx),
    })
}

/// The methods: each payment with its three draws, and then what they call.
pub(crate) fn methods(alloc: Global, draws: &mut Draws) -> Result<List<Method>, NoMemory>
    ensures methods { IfOk result (λ methods. methods ≡ defined.payments draws.old.state ++ defined.helpers) }
    ensures state { OnOk result (draws.new.state ≡ after draws.old.state 192) }
{
    let mut methods = List::new(alloc);
    for number in 0..PAYMENTS {
        let payment = next_payment(draws);
        methods.push(payment_method(alloc, number, payment)?)?;
    }
    push_helpers(alloc, &mut methods)?;
    Ok(methods)
}

fn push_helpers(alloc: Global, methods: &mut List<Method>) -> Result<(), NoMemory>
    ensures { OnOk result (methods.new ≡ methods.old ++ defined.helpers) }
{
    let pick = vec![in alloc; Stmt::Need(STOCK_ROW, 1), Stmt::Add(STOCK_ROW, -1)]?;
    methods.push(named_method(alloc, STOCK, "pick", pick)?)?;
    let note = vec![in alloc; Stmt::Add(AUDIT_ROW, 1)]?;
    methods.push(named_method(alloc, AUDIT, "note", note)?)?;
    let mail = vec![in alloc; Stmt::Add(MAILS_ROW, 1)]?;
    methods.push(named_method(alloc, AUDIT, "mail", mail)?)
}

fn named_method(
    alloc: Global,
    bean: BeanNo,
    name: &str,
    body: Vec<Stmt>,
) -> Result<Method, NoMemory>
    ensures { IfOk result (λ method. method ≡ defined.method_of bean name.now body.items) }
{
    let name = Name::new(alloc, name)?;
    Ok(method_of(bean, name, List::from_vec(body)))
}

/// A method with the attribute of its bean.
pub(crate) fn method_of(bean: BeanNo, name: Name, body: List<Stmt>) -> Method
    ensures { result ≡ defined.method_of bean name body }
{
    Method {
        bean,
        name,
        tx: None,
        body,
    }
}

/// The listener that mails each payment once it is committed.
pub(crate) fn listeners(alloc: Global) -> Result<List<Listener>, NoMemory>
    ensures { IfOk result (λ listeners. listeners ≡ defined.listeners) }
{
    let call = Stmt::Call {
        method: MAIL,
        catch: None,
    };
    let body = vec![in alloc; call]?;
    let mut listeners = List::new(alloc);
    listeners.push(Listener {
        name: Name::new(alloc, "mail")?,
        event: PAID,
        phase: Phase::AfterCommit,
        order: i32::MAX,
        fallback: false,
        body: List::from_vec(body),
    })?;
    Ok(listeners)
}

/// A name that ends in the two digits of a number below 100.
pub(crate) fn numbered(alloc: Global, prefix: &str, number: u32) -> Result<Name, NoMemory>
    ensures { IfOk result (λ name. name ≡ prefix.now ++ defined.two_digits number) }
{
    let (tens, ones) = (number / 10, number % 10);
    let text = format!(in alloc; "{prefix}{tens}{ones}")?;
    Ok(Name::from_text(text))
}
