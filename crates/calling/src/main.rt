// How the model is called from another crate: a start, a take, steps until something happens, actions and a line that are refused.
// Each function answers every input; a number says why a start, an action or a step was refused (README.md has the list), 0
// that it was done. A state is handed in and handed back by value.
#![tactic(auto)]

use plan::Plan;
use positions::VALUES;
use ring::State;
use std::io::Result;

// Multiring rules, one lock, two positions: a junction with two nodes (1 and 2), then node 3 on the main ring.
fn small_plan() -> Plan {
    let mut values = [0u8; VALUES];
    values[0] = 2;
    Plan {
        rules: 2,
        locks: 1,
        positions: 2,
        values,
    }
}

// Takes lock 0, tells the action's number, and hands its state on.
fn after_take(rt: &impl Print, state: State, node: u8, what: &str) -> Result<State> {
    let taken = state.take(node, 0);
    println!(rt; "{what}: {}", acts::answer_number(taken.answer))?;
    Ok(taken.state)
}

// One step, and then as many as bring the first event, at most 20: the event of node 1, which stands at place 0.
fn after_steps(rt: &impl Print, state: State) -> Result<State> {
    let stepped = state.step();
    println!(rt; "a step: {}", ring::step_number(stepped.answer))?;
    let advanced = stepped.state.advance(20);
    println!(rt; "steps to the first event: {}", advanced.done)?;
    let letter = turns::event_letter(advanced.events[0]);
    println!(rt; "the letter of node 1's event, 71 for G: {letter}")?;
    Ok(advanced.state)
}

// A line that does not fit is refused (16), and leaves the buffer as it was.
fn refused_line(rt: &impl Print) -> Result<()> {
    let mut buffer = [b'-'; 4];
    let written = lines::write_line(&mut buffer, 0, b'T', &[1, 0]);
    println!(rt;
        "a line of 8 bytes into a buffer of 4: {}",
        lines::written_number(written)
    )?;
    rt.write_all(&buffer)?;
    println!(rt)
}

fn main(rt: HostRuntime) -> Result<()> {
    let started = State::start(small_plan());
    println!(rt; "start: {}", ring::plan_number(started.answer))?;
    let asking = after_take(&rt, started.state, 1, "take of lock 0 by node 1")?;
    let holding = after_steps(&rt, asking)?;
    // refused: the node holds the lock (10), and the plan has no node 4 (7); the state comes back as it was
    let same = after_take(&rt, holding, 1, "take by node 1, which holds it")?;
    after_take(&rt, same, 4, "take by node 4, which is missing")?;
    refused_line(&rt)
}
