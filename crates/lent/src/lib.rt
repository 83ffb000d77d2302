// Bytes in a store that the caller lends.
#![tactic(auto)]

ghost use Rattle.std.specs.Prelude.{◌≡◌, ◌+◌, ◌≤◌, length};
ghost use Rattle.lent.specs.Bytes;

// Copies all of `bytes` into the store from place `at` on. The rest of the store stays.
pub fn put(store: &mut [u8], at: usize, bytes: &[u8])
    requires { at + length bytes.now ≤ length store.old }
    ensures { store.new ≡ Bytes.put store.old at bytes.now }
{
    let end = at + bytes.len();
    store[at..end].copy_from_slice(bytes);
}
