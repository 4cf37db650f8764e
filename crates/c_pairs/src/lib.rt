// The calls of the C interface over a pair list that is lent by itself.
#![tactic(auto)]

ghost use Rattle.std.specs.Prelude.{◌≡◌, [], ◌∷◌, length};
ghost use Rattle.av_pairs.specs.AvPairs.{count_pairs, ask_at};
ghost use Rattle.target_info.specs.TargetInfo.{find_pair};
ghost use Rattle.c_number.specs.Outcome.{call_number, call_out, Finds};
ghost use Rattle.c_pairs.specs.Pairs.{count_outcome, found_numbers, search_outcome, pair_numbers, asked_outcome};

use av_id::AvId;
use av_pairs::{Asked, AvPair};
use c_number::hand_out;
use wire::refusal::Refusal;

fn count_numbers(n: usize) -> [u64; 1]
    ensures { result ≡ n ∷ [] }
{
    [n as u64]
}

// Counts the pairs of a list.
pub fn count_pairs(list: &[u8], numbers: &mut [u64]) -> u64
    ensures answer { result ≡ call_number 1 (count_outcome (count_pairs list.now)) (length numbers.old) }
    ensures content { numbers.new ≡ call_out 1 (count_outcome (count_pairs list.now)) numbers.old }
{
    hand_out(
        numbers,
        1,
        || av_pairs::count_pairs(list).map(count_numbers),
    )
}

#[tactic(auto, unfolding(crate::specs::Pairs::found_numbers))]
fn found_numbers(found: Option<AvPair>) -> [u64; 3]
    ensures { result ≡ found_numbers found }
{
    match found {
        Some(p) => [1, p.at as u64, p.len as u64],
        None => [0, 0, 0],
    }
}

// Finds the first pair with an id.
pub fn find_pair(list: &[u8], id: u16, numbers: &mut [u64]) -> u64
    ensures answer { result ≡ call_number 3 (search_outcome (find_pair (record { id = id }) list.now)) (length numbers.old) }
    ensures content { numbers.new ≡ call_out 3 (search_outcome (find_pair (record { id = id }) list.now)) numbers.old }
{
    hand_out(
        numbers,
        3,
        || target_info::find_pair(list, AvId { id }).map(found_numbers),
    )
}

#[tactic(auto, unfolding(crate::specs::Pairs::pair_numbers))]
fn pair_numbers(p: AvPair, next: usize) -> [u64; 5]
    ensures { result ≡ pair_numbers p next }
{
    [
        1,
        u64::from(p.id.id),
        p.at as u64,
        p.len as u64,
        next as u64,
    ]
}

fn asked_numbers(asked: Asked) -> Result<[u64; 5], Refusal>
    ensures { Finds (λ numbers. numbers) result (asked_outcome asked) }
{
    match asked.step? {
        Some(p) => Ok(pair_numbers(p, asked.next)),
        None => Ok([0, 0, 0, 0, asked.next as u64]),
    }
}

// Asks at a place of a list, for a walk.
pub fn next_pair(list: &[u8], at: usize, numbers: &mut [u64]) -> u64
    ensures answer { result ≡ call_number 5 (asked_outcome (ask_at list.now at)) (length numbers.old) }
    ensures content { numbers.new ≡ call_out 5 (asked_outcome (ask_at list.now at)) numbers.old }
{
    hand_out(numbers, 5, || asked_numbers(av_pairs::ask_at(list, at)))
}
