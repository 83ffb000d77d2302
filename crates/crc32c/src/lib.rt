// CRC-32C, the integrity check of a message.
#![tactic(auto)]

mod table;

ghost use Rattle.std.specs.Prelude.{◌≡◌};
ghost use Rattle.crc32c.specs.Crc32c.{crc32c as check, start};
ghost use Rattle.crc32c.specs.Reflected.{Table, byte_step, through};

use table::TABLE;

// The register before the first byte.
const START: u32 = 0xFFFF_FFFF;

// One byte is added at the low end, and eight single-bit steps follow: the bits above the lowest eight move down, and the table has
// what those eight become.
fn byte_step(table: &[u32; 256], x: u32, b: u8) -> u32
    requires { Table table.now }
    ensures { result ≡ byte_step x b }
{
    let y = x ^ u32::from(b);
    (y >> 8) ^ table[(y % 256) as usize]
}

// The register after all the bytes.
fn register_after(table: &[u32; 256], bytes: &[u8]) -> u32
    requires { Table table.now }
    ensures { result ≡ through start bytes.now }
{
    let mut x = START;
    for b in bytes {
        x = byte_step(table, x, *b);
    }
    x
}

// The CRC-32C of all the bytes. The table is lent here, once a message: a constant array is stored anew wherever it is used.
pub fn crc32c(bytes: &[u8]) -> u32
    ensures { result ≡ check bytes.now }
{
    register_after(&TABLE, bytes) ^ 0xFFFF_FFFF
}
