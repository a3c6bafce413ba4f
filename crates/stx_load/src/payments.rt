// The payments that clients make.
ghost use Rattle.std.specs.Prelude.{◌≡◌, ◌+◌, ◌≤◌, ◌<◌, IfOk, OnOk};
ghost use Rattle.stx_load.specs.Draws.{after};
ghost use Rattle.stx_load.specs.Generated as defined;

use crate::draws::Draws;
use crate::methods::{NOTE, PAID, PICK, SHOP, method_of, numbered};
use std::alloc::Global;
use stx_scenario::{List, Method, MethodNo, NoMemory, RUNTIME_EXCEPTION, RowNo, Stmt};

/// How many accounts there are.
pub(crate) const ACCOUNTS: u32 = 16;

/// The most that is paid at once.
const MOST_PAID: u32 = 50;

/// What is paid, from an account to another one, both by number.
#[derive(Clone, Copy, Debug, PartialEq, Eq)]
pub struct Payment {
    pub from: u32,
    pub to: u32,
    pub amount: u32,
}

/// The payment that the next three draws give.
#[tactic(auto, unfolding(crate::specs::Draws::after))]
pub(crate) fn next_payment(draws: &mut Draws) -> Payment
    ensures payment { result ≡ defined.payment draws.old.state }
    ensures state { draws.new.state ≡ after draws.old.state 3 }
    ensures amount { result.amount ≤ 50 }
{
    let from = draws.draw(ACCOUNTS);
    let to = (from + 1 + draws.draw(ACCOUNTS - 1)) % ACCOUNTS;
    let amount = 1 + draws.draw(MOST_PAID);
    Payment { from, to, amount }
}

/// The method with this number, which makes a payment.
pub(crate) fn payment_method(
    alloc: Global,
    number: u32,
    payment: Payment,
) -> Result<Method, NoMemory>
    ensures { IfOk result (λ method. method ≡ defined.payment_method number payment) }
{
    let name = numbered(alloc, "t", number)?;
    let body = payment_body(alloc, payment)?;
    Ok(method_of(SHOP, name, body))
}

/// It checks the first account, moves the amount, picks from the stock, notes the payment and tells of it.
fn payment_body(alloc: Global, payment: Payment) -> Result<List<Stmt>, NoMemory>
    ensures { IfOk result (λ body. body ≡ defined.payment_body payment) }
{
    let from = RowNo(payment.from);
    let amount = i64::from(payment.amount);
    let body = vec![in alloc;
        Stmt::Need(from, amount),
        Stmt::Add(from, -amount),
        Stmt::Add(RowNo(payment.to), amount),
        tried(PICK),
        tried(NOTE),
        Stmt::Publish(PAID),
    ]?;
    Ok(List::from_vec(body))
}

/// A call whose exceptions are caught.
fn tried(method: MethodNo) -> Stmt
    ensures { result ≡ defined.tried method }
{
    Stmt::Call {
        method,
        catch: Some(RUNTIME_EXCEPTION),
    }
}
