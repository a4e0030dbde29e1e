// Parts that only grow, in lent words: a count, then rows, the oldest first; unused words are zero.
ghost use Rattle.std.specs.Prelude.{◌≡◌, ℕ, ◌+◌, ◌<◌, ◌≤◌, List, [], ◌∷◌, ◌++◌, map, length, MatchOption, slice_index};
ghost use Rattle.cover.specs.Table.{held, stored, RoomForOne};
ghost use Rattle.model.specs.Tree.{has};
ghost use Rattle.model.specs.Model.{Delivery as Done};
ghost use Rattle.layout.specs.Logs.{number_row, numbers, Lists, delivery_row, deliveries, Delivers, all_to, delivery_in};

// A notice, by its number, was delivered to a subscriber.
#[derive(Clone, Copy, PartialEq, Eq, Debug)]
pub struct Delivery {
    pub notice: u64,
    pub subscriber: u64,
}

// Writes a row behind the others.
fn push(log: &mut [u64], row: &[u64])
    requires { (0 < length row.now) × RoomForOne (length row.now) log.old }
    ensures { log.new ≡ stored (length row.now) (held (length row.now) log.old ++ row.now ∷ []) log.old }
{
    let count = log[0] as usize;
    let at = 1 + row.len() * count;
    log[at..at + row.len()].copy_from_slice(row);
    log[0] = count as u64 + 1;
}

// Writes a number behind those that are listed.
pub fn note(log: &mut [u64], number: u64)
    requires { (length log.old ≡ 4097) × (slice_index log.old 0 < 4096) }
    ensures words { log.new ≡ stored 1 (held 1 log.old ++ number_row number ∷ []) log.old }
    ensures holds { (ks : List ℕ) → Lists ks log.old → Lists (number ∷ ks) log.new }
{
    push(log, &[number]);
}

// Whether a number is listed.
pub fn lists(log: &[u64], number: u64) -> bool
    requires { (length log.now ≡ 4097) × (slice_index log.now 0 ≤ 4096) }
    ensures { result ≡ has (numbers log.now) number }
{
    let count = log[0] as usize;
    log[1..1 + count].contains(&number)
}

// Writes a delivery of the notice to each of these subscribers, in their order.
pub fn deliver(log: &mut [u64], notice: u64, whom: &[u64])
    requires { (length log.old ≡ 131073) × (slice_index log.old 0 + length whom.now ≤ 65536) }
    ensures words { log.new ≡ stored 2 (held 2 log.old ++ map delivery_row (all_to notice whom.now)) log.old }
    ensures holds { (hs : List Done) → Delivers hs log.old → Delivers (hs ++ all_to notice whom.now) log.new }
{
    for &subscriber in whom {
        push(log, &[notice, subscriber]);
    }
}

// The i-th delivery, counted from the oldest.
pub fn delivery_at(log: &[u64], i: usize) -> Option<Delivery>
    requires { (length log.now ≡ 131073) × (slice_index log.now 0 ≤ 65536) }
    ensures { MatchOption result
        (length (deliveries log.now) ≤ i)
        (λ d. (i < length (deliveries log.now)) × (d.notice ≡ (delivery_in (deliveries log.now) i).what) × (d.subscriber ≡ (delivery_in (deliveries log.now) i).whom)) }
{
    if i < log[0] as usize {
        Some(Delivery {
            notice: log[1 + 2 * i],
            subscriber: log[2 + 2 * i],
        })
    } else {
        None
    }
}
