// The layouts whose machines the calls take: document 01's, and the one whose directories stand in columns.
ghost use Rattle.std.specs.Prelude.{◌≤◌};
ghost use Rattle.std.proofs.Common.{lit≤};
ghost use Rattle.tables.specs.declared.Layout.{Layout};
ghost use Rattle.tables.specs.Layouts.{base, wide};

use tables::{BASE, Layout, WIDE};

// A layout known by its type, so that no call is handed one with more than 16 directory rows.
pub trait LaidOut {
    ghost LAYOUT: { Layout };

    const LAYOUT: Layout;

    ghost few: { LAYOUT.directories ≤ 16 };
}

// 5 directory rows and counts.
#[derive(Clone, Copy)]
pub struct Base;

// 16 directory rows, in columns.
#[derive(Clone, Copy)]
pub struct Wide;

impl LaidOut for Base {
    ghost LAYOUT = { base };

    const LAYOUT: Layout = BASE;

    ghost few = { lit≤ tt };
}

impl LaidOut for Wide {
    ghost LAYOUT = { wide };

    const LAYOUT: Layout = WIDE;

    ghost few = { lit≤ tt };
}
