// The calls of the worked runs.
use ledger::Move;
use replay::Call;
use std::array;

const START_OVER: Call = Call::StartOver;

fn run(thread: usize, instruction: usize) -> Call {
    Call::Offer(Move::Run {
        thread,
        instruction,
    })
}

fn drain(thread: usize, cell: usize) -> Call {
    Call::Offer(Move::Drain { thread, cell })
}

fn judge(places: usize) -> Call {
    Call::Judge { places }
}

// Both stores run, both loads, then the drains.
pub(super) fn late() -> [Call; 7] {
    [
        run(0, 0),
        run(0, 1),
        run(1, 2),
        run(1, 3),
        drain(0, 0),
        drain(1, 1),
        judge(4),
    ]
}

// Each store drained directly, thread 0 first.
pub(super) fn prompt() -> [Call; 7] {
    [
        run(0, 0),
        drain(0, 0),
        run(0, 1),
        run(1, 2),
        drain(1, 1),
        run(1, 3),
        judge(4),
    ]
}

// The same, but thread 0's drain after its load.
pub(super) fn half_late() -> [Call; 7] {
    [
        run(0, 0),
        run(0, 1),
        drain(0, 0),
        run(1, 2),
        drain(1, 1),
        run(1, 3),
        judge(4),
    ]
}

// The second instruction right after the first, a store.
pub(super) fn hasty() -> [Call; 4] {
    [run(0, 0), run(0, 1), drain(0, 0), judge(1)]
}

// Both stores run, and the second drained first; then both loads, and the other drain.
pub(super) fn swapped() -> [Call; 7] {
    [
        run(0, 0),
        run(0, 1),
        drain(0, 1),
        run(1, 2),
        run(1, 3),
        drain(0, 0),
        judge(4),
    ]
}

pub(super) fn early() -> [Call; 4] {
    [run(0, 0), run(0, 1), drain(0, 0), judge(2)]
}

// Both stores wait; thread 0 loads between their drains.
pub(super) fn twice() -> [Call; 6] {
    [
        run(1, 1),
        run(1, 2),
        drain(1, 0),
        run(0, 0),
        drain(1, 0),
        judge(3),
    ]
}

// The fence before and after the drain, and on to label 5; then the three that are refused, and each other way to be refused.
pub(super) fn through() -> [Call; 18] {
    [
        run(0, 0),
        run(0, 1),
        run(0, 2),
        drain(0, 15),
        run(0, 2),
        run(0, 3),
        run(0, 4),
        run(0, 5),
        run(0, 6),
        run(0, 7),
        run(8, 0),
        run(0, 8),
        run(1, 0),
        run(0, 0),
        drain(8, 0),
        drain(0, 16),
        drain(0, 15),
        judge(5),
    ]
}

pub(super) fn bounds() -> [Call; 10] {
    [
        run(7, 0),
        run(7, 1),
        run(7, 2),
        run(7, 3),
        run(7, 0),
        run(7, 4),
        run(7, 5),
        drain(7, 15),
        judge(3),
        judge(4),
    ]
}

// Sixteen stores and one more, which goes once one was drained.
pub(super) fn filling() -> [Call; 19] {
    array::from_fn(|call| match call {
        17 => drain(0, 0),
        _ => run(0, 0),
    })
}

pub(super) fn fresh() -> [Call; 2] {
    [judge(0), judge(256)]
}

// While a store waits, then with lists that are one place too short and long enough.
pub(super) fn too_soon() -> [Call; 8] {
    [
        run(0, 0),
        judge(256),
        judge(0),
        run(0, 1),
        drain(0, 0),
        judge(1),
        judge(2),
        judge(3),
    ]
}

// A violation, a fresh start, and then the same moves but for the order of the drains.
pub(super) fn over_again() -> [Call; 17] {
    [
        run(0, 0),
        run(0, 1),
        run(1, 2),
        run(1, 3),
        drain(0, 0),
        drain(1, 1),
        judge(4),
        START_OVER,
        judge(0),
        drain(0, 0),
        run(0, 0),
        drain(0, 0),
        run(0, 1),
        run(1, 2),
        drain(1, 1),
        run(1, 3),
        judge(4),
    ]
}

// 256 runs and one more; then lists of 255 and of 256 places.
pub(super) fn counting() -> [Call; 259] {
    array::from_fn(|call| match call {
        257 => judge(255),
        258 => judge(256),
        _ => run(0, 0),
    })
}
