// Shows how the kinds of store buffer differ: makes the same calls of each, and prints what each answers.
#![tactic(auto)]

use buffers::{Direct, PerCell, Queue, StoreBuffer, StrongCells};
use refusal::Refusal;
use std::array;
use std::fmt::Display;

fn word(free: bool) -> &'static str {
    if free { "free" } else { "not free" }
}

// A buffer whose calls print what they answer.
#[derive(Drop)]
struct Shown<'a, B> {
    rt: &'a HostRuntime,
    buffer: B,
}

impl<'a, B: StoreBuffer> Shown<'a, B> {
    // What a call answered, or by what it was refused.
    fn tell<T: Display + Drop>(
        &self,
        call: impl Display + Drop,
        answer: Result<T, Refusal>,
    ) -> anyhow::Result<()> {
        match answer {
            Ok(value) => println!(self.rt; "{call}: {value}")?,
            Err(refusal) => println!(self.rt; "{call}: refused {refusal}")?,
        }
        Ok(())
    }

    fn put(&mut self, thread: usize, cell: usize, value: u32) -> anyhow::Result<()> {
        let answer = self.buffer.put(thread, cell, value);
        self.tell(
            format_args!("put({thread}, {cell}, {value})"),
            answer.map(|()| "done"),
        )
    }

    fn take(&mut self, thread: usize, cell: usize) -> anyhow::Result<()> {
        let answer = self.buffer.take(thread, cell);
        self.tell(format_args!("take({thread}, {cell})"), answer)
    }

    fn newest(&self, thread: usize, cell: usize) -> anyhow::Result<()> {
        match self.buffer.newest(thread, cell) {
            Some(value) => println!(self.rt; "newest({thread}, {cell}): {value}")?,
            None => println!(self.rt; "newest({thread}, {cell}): none")?,
        }
        Ok(())
    }

    fn free_to_step(&self, thread: usize) -> anyhow::Result<()> {
        let free = word(self.buffer.free_to_step(thread));
        println!(self.rt; "free_to_step({thread}): {free}")?;
        Ok(())
    }

    // Stores of thread 0 to the cells 0 and 1 come to wait.
    fn puts(&mut self) -> anyhow::Result<()> {
        self.buffer.clear();
        println!(self.rt; "clear(): done")?;
        self.free_to_step(0)?;
        self.put(0, 0, 5)?;
        self.free_to_step(0)?;
        self.free_to_step(1)?;
        self.put(0, 1, 1)?;
        self.newest(0, 0)?;
        self.newest(0, 1)?;
        self.newest(1, 0)
    }

    // They are to leave, the second first.
    fn takes(&mut self) -> anyhow::Result<()> {
        let free = word(self.buffer.drain_free(0, 1));
        println!(self.rt; "drain_free(0, 1): {free}")?;
        self.take(0, 1)?;
        self.take(0, 0)?;
        self.take(0, 0)?;
        let waiting = self.buffer.waiting(0);
        println!(self.rt; "waiting(0): {waiting}")?;
        Ok(())
    }
}

fn show<B: StoreBuffer + Drop>(rt: &HostRuntime, name: &str, buffer: B) -> anyhow::Result<()> {
    println!(rt; "== {name}")?;
    let mut shown = Shown { rt, buffer };
    shown.puts()?;
    shown.takes()?;
    shown.put(8, 0, 1)?;
    shown.put(0, 16, 1)
}

fn run(rt: &HostRuntime) -> anyhow::Result<()> {
    show(rt, "direct", Direct::new(rt.alloc())?)?;
    show(rt, "queue", Queue::new(rt.alloc())?)?;
    show(rt, "per-cell", PerCell::new(rt.alloc())?)?;
    let strong = StrongCells::new(PerCell::new(rt.alloc())?, array::from_fn(|cell| cell == 0));
    show(rt, "per-cell under a strong cell 0", strong)
}

fn main(rt: HostRuntime) -> anyhow::Result<()> {
    run(&rt)
}
