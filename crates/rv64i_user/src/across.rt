// Accesses that cross from one page into the next, byte by byte.
ghost use Rattle.std.specs.Prelude.{◌≡◌, ◌<◌, ◌≤◌, ◌+◌, ◌*◌, ◌/◌, ◌%◌, ◌^◌, ◌⊎◌, ℕ, true, if◌then◌else◌, ◌==◌, IfOk, MatchResult, Some, None};
ghost use Rattle.isa_model.specs.Memory.{IsSize, byte_at, first_lack, number_at, put_number, read_unless, stored};
ghost use Rattle.rv64i_user.specs.Places.{Within};

use crate::page_memory::PageMem;
use isa_model::Lack;
use mck_word::Access;

// Two pages with their places.
#[derive(Clone, Copy)]
struct Places {
    first: u64,
    at: usize,
    second: u64,
    then: usize,
}

// The place of one of the two.
fn place_of(two: &Places, page: u64) -> usize
    ensures { result ≡ (if page == two.now.first then two.now.at else two.now.then) }
{
    if page == two.first { two.at } else { two.then }
}

// The byte at an address in one of the two.
fn byte<P: PageMem>(m: &P, two: &Places, addr: u64) -> u8
    requires first { P.holds m.now two.now.at two.now.first ≡ true }
    requires second { P.holds m.now two.now.then two.now.second ≡ true }
    requires one { (addr / 4096 ≡ two.now.first) ⊎ (addr / 4096 ≡ two.now.second) }
    ensures { result ≡ byte_at (P.memory m.now) addr }
{
    let page = addr / 4096;
    m.bytes(place_of(two, page), page)[(addr % 4096) as usize]
}

// The number that some bytes in the two pages spell.
fn number<P: PageMem>(m: &P, two: &Places, addr: u64, n: u32) -> u64
    requires few { n ≤ 8 }
    requires first { P.holds m.now two.now.at two.now.first ≡ true }
    requires second { P.holds m.now two.now.then two.now.second ≡ true }
    requires within { Within two.now.first two.now.second addr n }
    ensures value { result ≡ number_at (P.memory m.now) addr n }
    ensures below { result < 256 ^ n }
{
    if n == 0 {
        return 0;
    }
    let above = number(m, two, addr.wrapping_add(1), n - 1);
    u64::from(byte(m, two, addr)) + 256 * above
}

// Writes the low bytes of a number into the two pages.
fn put<P: PageMem>(m: &mut P, two: &Places, addr: u64, n: u32, v: u64)
    requires first { P.holds m.old two.now.at two.now.first ≡ true }
    requires second { P.holds m.old two.now.then two.now.second ≡ true }
    requires within { Within two.now.first two.now.second addr n }
    ensures put { P.memory m.new ≡ put_number (P.memory m.old) addr n v }
    ensures held { (j p : ℕ) → P.holds m.old j p ≡ true → P.holds m.new j p ≡ true }
{
    if n != 0 {
        let page = addr / 4096;
        m.set_some(place_of(two, page), page, (addr % 4096) as usize, 1, v);
        put(m, two, addr.wrapping_add(1), n - 1, v / 256);
    }
}

// The two pages of an access with their places, or the first that lacks the right.
fn find<P: PageMem>(m: &P, access: Access, addr: u64, size: u32) -> Result<Places, Lack>
    requires { IsSize size }
    ensures { MatchResult result (λ two. (first_lack (P.memory m.now) access addr size ≡ None) × (P.holds m.now two.at two.first ≡ true) × (P.holds m.now two.then two.second ≡ true) × Within two.first two.second addr size)
        (λ l. first_lack (P.memory m.now) access addr size ≡ Some l) }
{
    let first = addr / 4096;
    let second = addr.wrapping_add(u64::from(size) - 1) / 4096;
    match m.place(first, access) {
        Some(at) => match m.place(second, access) {
            Some(then) => Ok(Places {
                first,
                at,
                second,
                then,
            }),
            None => Err(Lack {
                page: second,
                access,
            }),
        },
        None => Err(Lack {
            page: first,
            access,
        }),
    }
}

/// The number at an address, or the page that lacks the right.
#[cold]
#[inline(never)]
pub fn read<P: PageMem>(m: &P, access: Access, addr: u64, size: u32) -> Result<u64, Lack>
    requires { IsSize size }
    ensures value { result ≡ read_unless (first_lack (P.memory m.now) access addr size) (number_at (P.memory m.now) addr size) }
    ensures below { IfOk result (λ v. v < 256 ^ size) }
{
    match find(m, access, addr, size) {
        Ok(two) => Ok(number(m, &two, addr, size)),
        Err(lack) => Err(lack),
    }
}

/// Stores the low bytes of a number, or nothing.
#[cold]
#[inline(never)]
pub fn store<P: PageMem>(m: &mut P, addr: u64, size: u32, v: u64) -> Result<(), Lack>
    requires { IsSize size }
    ensures stored { (result, P.memory m.new) ≡ stored (P.memory m.old) addr size v }
    ensures held { (j p : ℕ) → P.holds m.old j p ≡ true → P.holds m.new j p ≡ true }
{
    match find(m, Access::Write, addr, size) {
        Ok(two) => {
            put(m, &two, addr, size, v);
            Ok(())
        }
        Err(lack) => Err(lack),
    }
}
