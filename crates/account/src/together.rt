// A rehearsal: the same calls on a console over a quick part and on one over a slow part, side by side.
use array::{Array, Layout};
use chip::{Chip, Setup};
use console::{Call, Console};
use geometry::BlockSet;
use rehearsal::{Row, Seats, rehearse};
use script::Reply;
use std::alloc::{AllocError, Global};
use tc58::driven;
use workbench::Trouble;

// The quick console's part.
const QUICK: Layout = Layout {
    count: 4,
    width: 512,
};

// The slowest bench chip that its data sheet allows.
const SLOW: Setup = Setup {
    kind: geometry::BENCH,
    program: 300,
    erase: 10_000_000,
    suspend: 15,
    protected: BlockSet::NONE,
    worn: BlockSet::NONE,
};

// Position 3 is stored eight times: the books change at the last, and what follows comes in the middle of an erasure.
const CALLS: [Call; 24] = [
    Call::Next { position: 0 },
    Call::Set {
        position: 1,
        stops: 0xF0,
    },
    Call::Set {
        position: 5,
        stops: 0x3,
    },
    Call::Set {
        position: 3,
        stops: 0x1,
    },
    Call::Set {
        position: 3,
        stops: 0x2,
    },
    Call::Set {
        position: 3,
        stops: 0x4,
    },
    Call::Set {
        position: 3,
        stops: 0x8,
    },
    Call::Clear { position: 3 },
    Call::Recall { position: 3 },
    Call::Set {
        position: 3,
        stops: 0x10,
    },
    Call::Set {
        position: 3,
        stops: 0x20,
    },
    Call::Recall { position: 3 },
    Call::Set {
        position: 3,
        stops: 0x40,
    },
    Call::Recall { position: 3 },
    Call::Next { position: 3 },
    Call::Wait { us: 500 },
    Call::Recall { position: 1 },
    Call::Next { position: 5 },
    Call::Recall { position: 8 },
    Call::Set {
        position: 2,
        stops: 1 << 63,
    },
    Call::Clear { position: 5 },
    Call::Next { position: 3 },
    Call::Wait { us: 2_000_000_000 },
    Call::Recall { position: 3 },
];

fn call_text(heap: Global, call: Call) -> Result<String, AllocError> {
    match call {
        Call::Set { position, stops } => format!(in heap; "set {position} to {stops:X}"),
        Call::Clear { position } => format!(in heap; "clear {position}"),
        Call::Recall { position } => format!(in heap; "recall {position}"),
        Call::Next { position } => format!(in heap; "next {position}"),
        Call::Wait { us } => format!(in heap; "wait {us}"),
    }
}

// A call, and what both consoles answered.
fn print_row(rt: &HostRuntime, call: &str, quick: Reply, slow: Reply) -> Result<(), Trouble> {
    let one = quick.to_string(rt.alloc())?;
    println!(rt; "  {call:<26} | {:<37} | {slow}", one.as_str())?;
    Ok(())
}

// A row for each call.
fn rows_of(heap: Global) -> Result<Vec<Row>, AllocError> {
    let mut rows = Vec::with_capacity(heap, CALLS.len())?;
    for call in CALLS.iter() {
        rows.push(Row::of(*call))?;
    }
    Ok(rows)
}

// The rehearsal, with its account.
pub fn run(rt: &HostRuntime) -> Result<(), Trouble> {
    let heap = rt.alloc();
    let mut quick = Console::new(Array::blank(heap, QUICK)?);
    let mut slow = Console::new(driven(Chip::blank(heap, SLOW)?));
    let on_array = Seats {
        first: 0,
        second: 1,
    };
    let on_chip = Seats {
        first: 1,
        second: 2,
    };
    let mut rows = rows_of(heap)?;
    let opened = rehearse(
        &mut quick,
        &mut slow,
        on_array,
        on_chip,
        rows.as_mut_slice(),
    );
    println!(rt; "\nThe same calls on a console over an array and on one over a slow chip.")?;
    println!(rt; "  {:<26} | {:<37} | chip", "call", "array")?;
    print_row(
        rt,
        "open",
        Reply::Answer(opened.quick.reply),
        Reply::Answer(opened.slow.reply),
    )?;
    for row in rows.iter() {
        let name = call_text(heap, row.call)?;
        print_row(
            rt,
            name.as_str(),
            Reply::Answer(row.quick.reply),
            Reply::Answer(row.slow.reply),
        )?;
    }
    Ok(())
}
