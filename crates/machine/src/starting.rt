// Start read and start write.
ghost use Rattle.std.specs.Prelude.{◌≡◌, [], ◌≤◌};
ghost use Rattle.tables.specs.Machines.{machine_of};
ghost use Rattle.machine.specs.Calls.{start_read, start_write};
ghost use Rattle.machine.specs.Buffers.{call, Gives};
ghost use Rattle.machine.specs.Told.{told, checked};
ghost use Rattle.machine.specs.Inner.{Ready, Took, Launches, start_code, launch_step, start_step};

use crate::refusal::Refusal;
use crate::{codes, send};
use rules::{Answer, answers, request};
use tables::{Client, Conf, Layout, blank, places, rows};

// Asks whether a client can start, by its row.
#[tactic(auto, unfolding(crate::specs::Inner::start_code))]
fn ask_start(k: Conf, w: Client) -> Result<(), Refusal>
    ensures { checked result ≡ start_code k w }
{
    if w.down == 1 {
        return Err(Refusal::Down);
    }
    if w.phase != 0 {
        return Err(Refusal::Busy);
    }
    if (k.top as u64) < w.number as u64 + 3 {
        return Err(Refusal::Worn);
    }
    Ok(())
}

// The row y of client c, and the request of its phase, where there is room.
fn launch(lay: Layout, m: &mut [u32], k: Conf, c: u32, y: Client) -> Result<Answer, Refusal>
    requires { Launches lay m.old k c y }
    ensures { Took lay (launch_step (machine_of lay m.old) k c y) (told result) [] m.old m.new }
{
    let p = request::request_of(k, c, y);
    send::ask_room(lay, m, 0, p.to)?;
    places::set_client(lay, m, (c - 1) as usize, y);
    send::send(lay, m, p);
    Ok(answers::coded(0))
}

// A start in phase 1 or 4, on a machine that is not bad.
fn start(lay: Layout, m: &mut [u32], c: u32, phase: u32, page: [u32; 16]) -> Result<Answer, Refusal>
    requires { Ready lay m.old }
    ensures { Took lay (start_step (machine_of lay m.old) c phase page) (told result) [] m.old m.new }
{
    let k = rows::conf_at(m);
    let i = codes::place(k.clients, c)?;
    let w = places::client(lay, m, i);
    ask_start(k, w)?;
    let y = request::start(w, phase, page);
    launch(lay, m, k, c, y)
}

pub(crate) fn read(lay: Layout, m: &mut [u32], client: u32) -> Result<Answer, Refusal>
    requires { lay.directories ≤ 16 }
    ensures { Gives (call lay (start_read client) m.old) (told result) [] m.new }
{
    codes::ask(lay, m, 16)?;
    start(lay, m, client, 1, blank::no_page())
}

pub(crate) fn write(
    lay: Layout,
    m: &mut [u32],
    client: u32,
    page: &[u32],
) -> Result<Answer, Refusal>
    requires { lay.directories ≤ 16 }
    ensures { Gives (call lay (start_write client page.now) m.old) (told result) [] m.new }
{
    codes::ask(lay, m, page.len())?;
    start(lay, m, client, 4, rows::page_at(page))
}
