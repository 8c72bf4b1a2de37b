// What the calls answer: code that is proved over every kind at once, and the kinds at the edges of threads, cells and room.
ghost use Rattle.std.specs.Prelude.{◌≡◌, ◌<◌, true, false, [], ◌∷◌, length, Some, Ok};
ghost use Rattle.buffers.specs.Calls.{put_answer};
ghost use Rattle.buffers.specs.Lists.{list_of, waits_to};
ghost use Rattle.buffers.specs.Theorems.{after_events, puts};

use super::*;
use refusal::Refusal;
use std::array;
use std::process::Abort;
use std::test::Fail;

// A thread reads its own store back, where there was room for it.
fn put_then_newest<B: StoreBuffer>(
    buffer: &mut B,
    thread: usize,
    cell: usize,
    value: u32,
) -> Option<u32>
    ensures { thread < 8 → cell < 16 → length (list_of (B.StoreBuffer.lists buffer.old) thread) < 16 → result ≡ Some value }
{
    let _ = buffer.put(thread, cell, value);
    buffer.newest(thread, cell)
}

// Of two stores to a cell that had none the first leaves first, where both were taken and that drain is then free.
fn first_of_two<B: StoreBuffer>(
    buffer: &mut B,
    thread: usize,
    cell: usize,
    first: u32,
    second: u32,
) -> Result<u32, Refusal>
    ensures { put_answer (B.StoreBuffer.lists buffer.old) thread cell ≡ Ok tt → put_answer (after_events (B.StoreBuffer.rules buffer.old) (B.StoreBuffer.lists buffer.old) (puts thread cell first ∷ [])) thread cell ≡ Ok tt → waits_to cell (list_of (B.StoreBuffer.lists buffer.old) thread) ≡ false → (B.StoreBuffer.rules buffer.old).drains (after_events (B.StoreBuffer.rules buffer.old) (B.StoreBuffer.lists buffer.old) (puts thread cell first ∷ puts thread cell second ∷ [])) thread cell ≡ true → result ≡ Ok first }
{
    buffer.put(thread, cell, first)?;
    buffer.put(thread, cell, second)?;
    buffer.take(thread, cell)
}

// The sixteen cells with one chosen.
fn only(cell: usize) -> [bool; 16] {
    array::from_fn(|c| c == cell)
}

// Stores are read back and leave in order, and a clear leaves none.
fn reads_and_drains<B: StoreBuffer>(rt: &impl Abort, buffer: &mut B) {
    assert_eq!(rt; put_then_newest(buffer, 7, 15, u32::MAX), Some(u32::MAX));
    assert_eq!(rt; buffer.waiting(7), 1);
    buffer.clear();
    assert_eq!(rt; buffer.waiting(7), 0);
    assert_eq!(rt; buffer.newest(7, 15), None);
    assert_eq!(rt; first_of_two(buffer, 7, 15, 4, 5), Ok(4));
    assert_eq!(rt; buffer.newest(7, 15), Some(5));
    assert_eq!(rt; buffer.waiting(7), 1);
    assert_eq!(rt; buffer.waiting(6), 0);
    assert!(rt; buffer.drain_free(7, 15));
    assert!(rt; !buffer.drain_free(7, 14));
}

// There is no thread 8 and no cell 16, and the thread is looked at first.
fn refuses_out_of_range<B: StoreBuffer>(rt: &impl Abort, buffer: &mut B) {
    assert_eq!(rt; buffer.put(8, 16, 1), Err(Refusal::ThreadOutOfRange));
    assert_eq!(rt; buffer.put(8, 15, 1), Err(Refusal::ThreadOutOfRange));
    assert_eq!(rt; buffer.put(7, 16, 1), Err(Refusal::CellOutOfRange));
    assert_eq!(rt; buffer.take(8, 0), Err(Refusal::DrainNotFree));
    assert_eq!(rt; buffer.take(7, 16), Err(Refusal::DrainNotFree));
    assert_eq!(rt; buffer.newest(8, 0), None);
    assert_eq!(rt; buffer.waiting(8), 0);
    assert!(rt; !buffer.free_to_step(8));
}

// Sixteen stores of a thread may wait. The cell is looked at before the room.
fn holds_sixteen<B: StoreBuffer>(rt: &impl Abort, buffer: &mut B) {
    buffer.clear();
    for value in 0..16u32 {
        assert_eq!(rt; buffer.put(7, 15, value), Ok(()));
    }
    assert_eq!(rt; buffer.put(7, 0, 16), Err(Refusal::BufferFull));
    assert_eq!(rt; buffer.put(7, 16, 16), Err(Refusal::CellOutOfRange));
    assert_eq!(rt; buffer.waiting(7), 16);
    assert_eq!(rt; buffer.newest(7, 15), Some(15));
    assert_eq!(rt; buffer.put(6, 0, 16), Ok(()));
    assert_eq!(rt; buffer.take(7, 15), Ok(0));
    assert_eq!(rt; buffer.put(7, 0, 16), Ok(()));
    buffer.clear();
    assert_eq!(rt; buffer.waiting(6) + buffer.waiting(7), 0);
}

fn any_kind<B: StoreBuffer + Drop>(rt: &impl Abort, mut buffer: B) {
    reads_and_drains(rt, &mut buffer);
    refuses_out_of_range(rt, &mut buffer);
    holds_sixteen(rt, &mut buffer);
}

#[test]
fn every_kind_answers_alike(rt: HostRuntime) -> Result<(), Fail> {
    any_kind(&rt, Direct::new(rt.alloc())?);
    any_kind(&rt, Queue::new(rt.alloc())?);
    any_kind(&rt, PerCell::new(rt.alloc())?);
    any_kind(&rt, StrongCells::new(PerCell::new(rt.alloc())?, only(15)));
    Ok(())
}

// Whether the threads 0 and 7 are free to step.
fn free<B: StoreBuffer>(buffer: &B) -> (bool, bool) {
    (buffer.free_to_step(0), buffer.free_to_step(7))
}

// Thread 0 stores to the cells 0 and 1, and the second store is to leave first.
fn second_first<B: StoreBuffer + Drop>(mut buffer: B) -> Result<u32, Refusal> {
    buffer.put(0, 0, 5)?;
    buffer.put(0, 1, 6)?;
    buffer.take(0, 1)
}

#[test]
fn queue_drains_only_the_oldest(rt: HostRuntime) -> Result<(), Fail> {
    assert_eq!(rt; second_first(Direct::new(rt.alloc())?), Ok(6));
    assert_eq!(rt;
        second_first(Queue::new(rt.alloc())?),
        Err(Refusal::DrainNotFree)
    );
    assert_eq!(rt; second_first(PerCell::new(rt.alloc())?), Ok(6));
    Ok(())
}

// Which of the threads 0 and 7 are free to step at first, with a store of thread 0 to a cell waiting, and with it gone.
fn free_around_a_store<B: StoreBuffer + Drop>(
    mut buffer: B,
    cell: usize,
) -> Result<[(bool, bool); 3], Refusal> {
    let first = free(&buffer);
    buffer.put(0, cell, 5)?;
    let waiting = free(&buffer);
    buffer.take(0, cell)?;
    Ok([first, waiting, free(&buffer)])
}

#[test]
fn direct_steps_once_nothing_waits(rt: HostRuntime) -> Result<(), Fail> {
    let all = (true, true);
    assert_eq!(rt;
        free_around_a_store(Direct::new(rt.alloc())?, 1),
        Ok([all, (false, false), all])
    );
    assert_eq!(rt;
        free_around_a_store(Queue::new(rt.alloc())?, 1),
        Ok([all, all, all])
    );
    assert_eq!(rt;
        free_around_a_store(PerCell::new(rt.alloc())?, 1),
        Ok([all, all, all])
    );
    Ok(())
}

#[test]
fn strong_cells_hold_their_own_thread(rt: HostRuntime) -> Result<(), Fail> {
    let all = (true, true);
    let strong = StrongCells::new(PerCell::new(rt.alloc())?, only(1));
    assert_eq!(rt;
        free_around_a_store(strong, 1),
        Ok([all, (false, true), all])
    );
    let strong = StrongCells::new(PerCell::new(rt.alloc())?, only(1));
    assert_eq!(rt; free_around_a_store(strong, 0), Ok([all, all, all]));
    Ok(())
}

// Strong cells over strong cells over queue: both choices hold a thread, and a drain is free as in a queue.
fn both_hold<B: StoreBuffer + Drop>(rt: &impl Abort, below: B) {
    let mut strong = StrongCells::new(StrongCells::new(below, only(0)), only(15));
    assert_eq!(rt; strong.put(0, 15, 5), Ok(()));
    assert_eq!(rt; strong.put(7, 1, 6), Ok(()));
    assert_eq!(rt; free(&strong), (false, true));
    assert_eq!(rt; strong.put(7, 0, 7), Ok(()));
    assert_eq!(rt; free(&strong), (false, false));
    assert_eq!(rt; strong.take(7, 0), Err(Refusal::DrainNotFree));
    assert_eq!(rt; strong.take(7, 1), Ok(6));
    assert_eq!(rt; strong.take(7, 0), Ok(7));
    assert_eq!(rt; free(&strong), (false, true));
}

#[test]
fn strong_cells_lie_over_strong_cells(rt: HostRuntime) -> Result<(), Fail> {
    both_hold(&rt, Queue::new(rt.alloc())?);
    Ok(())
}
