// The script: its lines one after the other, and the states that they are done on. At first both are the start state of plan
// 1, 1, 1, 0.
use crate::command::{Command, Thing};
use crate::say;
use acts::Action;
use plan::Plan;
use positions::VALUES;
use ring::State;
use std::io::Result;

// The state, and the one that was put aside.
#[derive(Clone, Copy)]
struct States {
    now: State,
    kept: State,
}

// Shows one thing of a state, in use or not.
fn show(rt: &impl Print, state: &State, thing: Thing) -> Result<()> {
    print!(rt; ":")?;
    match thing {
        Thing::Plan => say::plan(rt, &state.plan),
        Thing::Values(from) => say::values(rt, &state.plan, from),
        Thing::Zero => say::zero(rt, &state.zeroth),
        Thing::Queue(place) => {
            let car = state.zeroth.queue.get(place);
            car.map_or(Ok(()), |car| say::car(rt, *car))
        }
        Thing::Node(place) => {
            let node = state.nodes.get(place);
            node.map_or(Ok(()), |node| say::node(rt, *node))
        }
        Thing::Junction(place) => {
            let junction = state.junctions.get(place);
            junction.map_or(Ok(()), |junction| say::junction(rt, *junction))
        }
    }
}

// Puts a value at a place of a row; a row that has no such place is left as it is.
fn put<T: Copy>(row: &mut [T], place: usize, value: T) {
    if let Some(there) = row.get_mut(place) {
        *there = value;
    }
}

impl States {
    fn first() -> States {
        let started = State::start(Plan {
            rules: 1,
            locks: 1,
            positions: 1,
            values: [0; VALUES],
        });
        States {
            now: started.state,
            kept: started.state,
        }
    }

    // Asks for the start state of a plan, and says what is answered by its number in 01 (0: done); what is handed back is the state from
    // then on.
    fn start(&mut self, rt: &impl Print, plan: Plan) -> Result<()> {
        let started = State::start(plan);
        self.now = started.state;
        say::answer(rt, ring::plan_number(started.answer))
    }

    // Asks for a step likewise, with its events.
    fn step(&mut self, rt: &impl Print) -> Result<()> {
        let stepped = self.now.step();
        self.now = stepped.state;
        say::answer(rt, ring::step_number(stepped.answer))?;
        say::events(rt, &stepped.events)
    }

    // Asks for an action likewise, by the method of its name.
    fn act(&mut self, rt: &impl Print, action: Action, node: u8, lock: u8) -> Result<()> {
        let acted = match action {
            Action::Take => self.now.take(node, lock),
            Action::Release => self.now.release(node, lock),
            Action::Force => self.now.force(node, lock),
        };
        self.now = acted.state;
        say::answer(rt, acts::answer_number(acted.answer))
    }

    // Does what a line says. A state is made up with the one thing changed that a line gives, in use or not; all else stays.
    fn obey(&mut self, rt: &impl Print, command: Command) -> Result<()> {
        match command {
            Command::Heading => {}
            Command::Keep => self.kept = self.now,
            Command::Back => self.now = self.kept,
            Command::Step => self.step(rt)?,
            Command::Act { action, node, lock } => self.act(rt, action, node, lock)?,
            Command::Start(plan) => self.start(rt, plan)?,
            Command::Show(thing) => show(rt, &self.now, thing)?,
            Command::Plan(plan) => self.now.plan = plan,
            Command::Values(from, values) => {
                for (value, given) in self.now.plan.values.iter_mut().skip(from).zip(values) {
                    *value = given;
                }
            }
            Command::Zero(car, count) => {
                self.now.zeroth.car = car;
                self.now.zeroth.count = count;
            }
            Command::Queue(place, car) => put(&mut self.now.zeroth.queue, place, car),
            Command::Node(place, node) => put(&mut self.now.nodes, place, node),
            Command::Junction(place, junction) => put(&mut self.now.junctions, place, junction),
        }
        Ok(())
    }
}

// Every line of the script: the line as it stands, and what it answers. Text behind the last line end is no line, and that is said.
pub fn run(rt: &impl Print, script: &[u8]) -> Result<()> {
    let mut states = States::first();
    for text in script.split_inclusive(|byte| *byte == b'\n') {
        let [line @ .., b'\n'] = text else {
            return say::not_understood(rt);
        };
        rt.write_all(line)?;
        match Command::of(line) {
            Some(command) => states.obey(rt, command)?,
            None => say::not_understood(rt)?,
        }
        println!(rt)?;
    }
    Ok(())
}
