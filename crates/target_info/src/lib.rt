// What is looked for in TargetInfo's list of pairs. `read_list` and `find_pair` make checks 10 to 13 on the list. `first_pair` and
// `server_names_in` ask that these held, so that none of them takes a list that runs out as ended; `pair_at` asks that they hold
// from its place on.
#![tactic(auto)]

ghost use Rattle.std.specs.Prelude.{◌≡◌, true, ◌+◌, ◌≤◌, length, Ok};
ghost use Rattle.av_id.specs.AvId.{is_timestamp};
ghost use Rattle.av_pairs.specs.AvPairs.{pair_at, stop_at, value_in, check_pairs};
ghost use Rattle.target_info.specs.TargetInfo.{first_pair, find_pair, time_with, read_list, server_names_in};

use av_id::AvId;
use av_pairs::{AvPair, check_pairs, step_at};
use wire::number::{u16_at, u64_at};
use wire::refusal::Refusal;

// What a list holds: how many pairs, the end pair left out, and the timestamp.
#[derive(Clone, Copy)]
pub struct Contents {
    pub pairs: usize,
    pub timestamp: Option<u64>,
}

// Which of the server's NetBIOS names are there: pairs 1 and 2.
#[derive(Clone, Copy)]
pub struct ServerNames {
    pub nb_computer_name: bool,
    pub nb_domain_name: bool,
}

// The pair at a place from which on the checks hold, or nothing at the end.
pub fn pair_at(list: &[u8], at: usize) -> Option<AvPair>
    requires { stop_at list.now at ≡ Ok tt }
    ensures { result ≡ pair_at list.now at }
{
    if list.len() == 0 {
        return None;
    }
    let id = AvId {
        id: u16_at(list, at),
    };
    if id.is_end() {
        return None;
    }
    Some(AvPair {
        id: id,
        at: at + 4,
        len: u16_at(list, at + 2),
    })
}

// A pair's value, as a part of its list.
pub fn value_of(list: &[u8], p: AvPair) -> &[u8]
    requires { p.at + p.len ≤ length list.now }
    ensures { result.now ≡ value_in list.now p }
{
    let at = p.at;
    let end = at + p.len as usize;
    &list[at..end]
}

// The first pair with the id.
pub fn first_pair(list: &[u8], id: AvId) -> Option<AvPair>
    requires { check_pairs list.now ≡ Ok tt }
    ensures { result ≡ first_pair id list.now }
{
    let mut at: usize = 0;
    let found = loop {
        let Some(p) = pair_at(list, at) else {
            break None;
        };
        if p.id == id {
            break Some(p);
        }
        at = p.at + p.len as usize;
    };
    found
}

// Checks 10 to 13 on the whole list, then the first pair with the id.
pub fn find_pair(list: &[u8], id: AvId) -> Result<Option<AvPair>, Refusal>
    ensures { result ≡ find_pair id list.now }
{
    check_pairs(list)?;
    Ok(first_pair(list, id))
}

// The timestamp with one more pair: the first that was seen stays.
fn time_with(time: Option<u64>, list: &[u8], p: AvPair) -> Option<u64>
    requires { is_timestamp p.id ≡ true → p.at + 8 ≤ length list.now }
    ensures { result ≡ time_with time list.now p }
{
    let None = time else {
        return time;
    };
    if p.id.is_timestamp() {
        return Some(u64_at(list, p.at));
    }
    time
}

// Goes over a list once: checks 10 to 13, and what the list holds, or the refusal of the earliest faulty pair.
pub fn read_list(list: &[u8]) -> Result<Contents, Refusal>
    ensures { result ≡ read_list list.now }
{
    let mut at: usize = 0;
    let mut n: usize = 0;
    let mut time = None;
    while let Some(p) = step_at(list, at)? {
        time = time_with(time, list, p);
        at = p.at + p.len as usize;
        n += 1;
    }
    Ok(Contents {
        pairs: n,
        timestamp: time,
    })
}

// Which of pairs 1 and 2 are there.
pub fn server_names_in(list: &[u8]) -> ServerNames
    requires { check_pairs list.now ≡ Ok tt }
    ensures { result ≡ server_names_in list.now }
{
    let computer = first_pair(
        list,
        AvId {
            id: AvId::NB_COMPUTER_NAME,
        },
    );
    let domain = first_pair(
        list,
        AvId {
            id: AvId::NB_DOMAIN_NAME,
        },
    );
    ServerNames {
        nb_computer_name: computer.is_some(),
        nb_domain_name: domain.is_some(),
    }
}
