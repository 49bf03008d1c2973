//! Rings of small tables, compared with a search through all lists.

ghost use Rattle.std.specs.Prelude.{◌≡◌, ◌*◌, length};
ghost use Rattle.bit_rows.specs.Rows.{word_count};

use crate::host::Host;
use bit_rows::table;
use rings::ring;

/// The greatest number of a table's numbers here.
const MOST: u32 = 4;

/// Whether number x leads to number y in a pattern, which has a bit for each pair of four numbers.
fn leads(pattern: u32, x: u32, y: u32) -> bool {
    x < MOST && y < MOST && (pattern >> (MOST * x + y)) & 1 == 1
}

/// The table of a pattern's pairs of numbers below `n`.
fn table_of(rt: &impl Host, pattern: u32, n: u32) -> Vec<u64>
    ensures { length result.items ≡ n * word_count n }
{
    let mut words = table::blank(rt.alloc(), n, n).expect(rt, "memory");
    for x in 0..n {
        for y in 0..n {
            if leads(pattern, x, y) {
                table::put(&mut words, n, x, y);
            }
        }
    }
    words
}

/// A list of `length` numbers below `n` that begins with `start`, by its place among these lists.
fn list_of(rt: &impl Host, mut place: u32, n: u32, length: u32, start: u32) -> Vec<u32> {
    let mut list = Vec::new(rt.alloc());
    for _ in 1..length {
        list.push(place.checked_rem(n).unwrap_or(0))
            .expect(rt, "memory");
        place = place.checked_div(n).unwrap_or(0);
    }
    list.push(start).expect(rt, "memory");
    list.reverse();
    list
}

/// Whether a list is a ring of a pattern: each number leads to the next, the last to the first, and
/// none occurs twice.
fn is_ring(pattern: u32, list: &[u32]) -> bool {
    for (k, &x) in list.iter().enumerate() {
        let next = list.get(k + 1).or(list.first()).copied().unwrap_or(MOST);
        if !leads(pattern, x, next) || list[..k].contains(&x) {
            return false;
        }
    }
    true
}

/// The number of lists of `length` numbers below `n` that begin with a given one.
fn lists(n: u32, length: u32) -> u32 {
    let mut lists: u32 = 1;
    for _ in 1..length {
        lists = lists.saturating_mul(n);
    }
    lists
}

/// The first ring through a number, among the lists by their lengths and then number by number.
fn first_ring(rt: &impl Host, pattern: u32, n: u32, start: u32) -> Option<Vec<u32>> {
    for length in 1..=n {
        for place in 0..lists(n, length) {
            let list = list_of(rt, place, n, length, start);
            if is_ring(pattern, &list) {
                return Some(list);
            }
        }
    }
    None
}

/// Whether the ring that is found through each number of a table is the first one.
fn finds_the_first(rt: &impl Host, pattern: u32, n: u32) -> bool {
    let words = table_of(rt, pattern, n);
    for start in 0..n {
        let found = ring(rt.alloc(), &words, n, start).expect(rt, "memory");
        if found != first_ring(rt, pattern, n, start) {
            return false;
        }
    }
    true
}

#[test]
fn each_table_of_three_numbers(rt: HostRuntime) {
    for pattern in 0..=0xFFF {
        assert!(rt; finds_the_first(&rt, pattern, 3), "{pattern}");
    }
}

#[test]
fn tables_of_four_numbers(rt: HostRuntime) {
    for k in 0..4096 {
        let pattern = k * 16 + k % 13;
        assert!(rt; finds_the_first(&rt, pattern, 4), "{pattern}");
    }
}

/// The number of numbers of a long ring.
const LONG: u32 = 200;

/// A table in which each number leads to the next, and the last to the first.
fn long_table(rt: &impl Host) -> Vec<u64>
    ensures { length result.items ≡ LONG * word_count LONG }
{
    let mut words = table::blank(rt.alloc(), LONG, LONG).expect(rt, "memory");
    for x in 1..LONG {
        table::put(&mut words, LONG, x - 1, x);
    }
    table::put(&mut words, LONG, LONG - 1, 0);
    words
}

#[test]
fn a_long_ring(rt: HostRuntime) {
    let found = ring(rt.alloc(), &long_table(&rt), LONG, 7).expect(&rt, "memory");
    let last = found.as_ref().and_then(|ring| ring.last()).copied();
    assert_eq!(rt; found.as_ref().map(Vec::len), Some(LONG as usize));
    assert_eq!(rt; last, Some(6));
}
