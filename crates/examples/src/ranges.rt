// The borders of the numbers.
use inspect::fields;
use std::io;
use tables::Conf;

// One party of each kind.
const ONE: Conf = Conf {
    clients: 1,
    directories: 1,
    replicas: 1,
    f: 0,
    rq: 1,
    wq: 1,
    top: 3,
    columns: 0,
};

fn word(k: Conf) -> &'static str {
    if fields::numbers(5, k) {
        "in range"
    } else {
        "out of range"
    }
}

// 3 directories, wq 2.
fn quorum(rt: &impl Print, rq: u32) -> io::Result<()> {
    let k = Conf {
        directories: 3,
        rq,
        wq: 2,
        ..ONE
    };
    println!(rt; "quorum nd 3, wq 2, rq {rq}: {}", word(k))
}

// f 1.
fn replicas(rt: &impl Print, nr: u32) -> io::Result<()> {
    let k = Conf {
        replicas: nr,
        f: 1,
        ..ONE
    };
    println!(rt; "replicas f 1, nr {nr}: {}", word(k))
}

pub fn run(rt: &impl Print) -> io::Result<()> {
    quorum(rt, 1)?;
    quorum(rt, 2)?;
    replicas(rt, 2)?;
    replicas(rt, 3)
}
