// What is asked before and after each shared call of each client.

/// Asked round each shared call, on the thread that makes it, and never while a client has its turn. `client` is a
/// number from 0, and `nth` counts that client's shared calls from 1.
pub trait Gate: Sync {
    fn before(&self, client: u32, nth: u64);

    fn after(&self, client: u32, nth: u64);
}

/// Lets every call pass.
#[derive(Drop)]
pub struct Free;

impl Gate for Free {
    fn before(&self, _client: u32, _nth: u64) {}

    fn after(&self, _client: u32, _nth: u64) {}
}
