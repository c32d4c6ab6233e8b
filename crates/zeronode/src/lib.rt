// The zero node: the car it is sending and its queue, rules (a), (b) and (c), and what 13 and 14 say of it.
#![tactic(auto)]

ghost use Rattle.std.specs.Prelude.{◌≡◌, ◌≤◌, ◌<◌};
ghost use Rattle.lists.specs.Loops.{every};
ghost use Rattle.zeronode.specs.Rules.{zero_start, zero_rule, keeps};
ghost use Rattle.zeronode.specs.Letters.{zero_letter, zero_letter_of};
ghost use Rattle.zeronode.specs.Turn.{shifted, head_off, sends, appended, arrives, zero_turn, count_left, overflows};
ghost use Rattle.zeronode.specs.Sound.{place_names, zero_sound};

use cars::{Car, Limits};

// The places of the queue.
pub const PLACES: usize = 65;

// The car it is sending, the queue with its head at place 0, and how many cars are in it.
// The queue is an array with its count beside it: places beyond the count come back as they were, and 13 refuses a count over 65,
// so that 65 is asked for where it is needed and is no invariant of the type.
#[derive(Clone, Copy)]
pub struct ZeroNode {
    pub car: Car,
    pub queue: [Car; PLACES],
    pub count: u8,
}

// (c), (a) and (b): send idle; send the token and take it off; send the head, which is not the token, and take it off.
#[derive(Clone, Copy, Debug, PartialEq, Eq)]
pub enum ZeroRule {
    SendsIdle,
    SendsToken,
    SendsHead(Car),
}

// Whether the arrival is appended to the queue.
#[tactic(auto, unfolding(crate::specs::Rules::keeps))]
pub fn keeps(arrival: Car) -> bool
    ensures { result ≡ keeps arrival }
{
    !matches!(arrival, Car::Idle | Car::Null | Car::Gotp(_) | Car::Didv(_))
}

// The queue without its head: the cars behind it move up, and the place given up becomes idle.
#[tactic(auto, using(crate::proofs::Queue::shifted_is), unfolding(crate::specs::Rules::empty_slot))]
fn shifted(mut queue: [Car; PLACES], count: usize) -> [Car; PLACES]
    requires { (0 < count) × (count ≤ 65) }
    ensures { result ≡ shifted queue count }
{
    queue.copy_within(1..count, 0);
    queue[count - 1] = Car::Idle;
    queue
}

impl ZeroNode {
    // The zero node at the start: it sends the token, and its queue is empty.
    #[tactic(auto, unfolding(crate::specs::Rules::empty_slot))]
    pub fn start() -> ZeroNode
        ensures { result ≡ zero_start }
    {
        ZeroNode {
            car: Car::Token,
            queue: [Car::Idle; PLACES],
            count: 0,
        }
    }

    // Which of (a), (b), (c) applies; its letter is 01's. By the queue's head: the token goes where the arrival is idle.
    #[tactic(auto, using(crate::proofs::Letters::lettered), unfolding(crate::specs::Rules::zero_rule, crate::specs::Rules::on_head, crate::specs::Rules::on_token, crate::specs::Rules::empty_slot))]
    pub fn rule(self, arrival: Car) -> ZeroRule
        ensures { (result ≡ zero_rule self arrival) × (zero_letter result ≡ zero_letter_of self arrival) }
    {
        if self.count == 0 {
            return ZeroRule::SendsIdle;
        }
        match (self.queue[0], arrival) {
            (Car::Token, Car::Idle) => ZeroRule::SendsToken,
            (Car::Token, _) => ZeroRule::SendsIdle,
            (head, _) => ZeroRule::SendsHead(head),
        }
    }

    // A car is sent and the head is taken off.
    #[tactic(auto, unfolding(crate::specs::Turn::head_off))]
    fn head_off(self, car: Car) -> ZeroNode
        requires { (0 < self.count) × (self.count ≤ 65) }
        ensures { result ≡ head_off self car }
    {
        ZeroNode {
            car,
            queue: shifted(self.queue, usize::from(self.count)),
            count: self.count - 1,
        }
    }

    // What is sent, and the queue without it.
    #[tactic(auto, using(crate::proofs::Queue::idle_or_queued), unfolding(crate::specs::Turn::sends))]
    fn sent(self, arrival: Car) -> ZeroNode
        requires { self.count ≤ 65 }
        ensures { result ≡ sends self (zero_rule self arrival) }
    {
        match self.rule(arrival) {
            ZeroRule::SendsIdle => ZeroNode {
                car: Car::Idle,
                ..self
            },
            ZeroRule::SendsToken => self.head_off(Car::Token),
            ZeroRule::SendsHead(head) => self.head_off(head),
        }
    }

    // The arrival at the queue's end, where there is a place.
    #[tactic(auto, unfolding(crate::specs::Turn::appended))]
    fn appended(mut self, arrival: Car) -> ZeroNode
        ensures { result ≡ appended self arrival }
    {
        if self.count < 65 {
            self.queue[usize::from(self.count)] = arrival;
            self.count += 1;
        }
        self
    }

    // The arrival at the queue's end, unless it is idle, null, gotp or didv.
    #[tactic(auto, unfolding(crate::specs::Turn::arrives))]
    fn arrives(self, arrival: Car) -> ZeroNode
        ensures { result ≡ arrives self arrival }
    {
        if keeps(arrival) {
            self.appended(arrival)
        } else {
            self
        }
    }

    // The zero node's turn in a step, with the car that arrives.
    #[tactic(auto, unfolding(crate::specs::Turn::zero_turn))]
    pub fn turn(self, arrival: Car) -> ZeroNode
        ensures { result ≡ zero_turn self arrival }
    {
        if self.count <= 65 {
            self.sent(arrival).arrives(arrival)
        } else {
            self
        }
    }

    // How many cars are left when the head has been sent.
    #[tactic(auto, unfolding(crate::specs::Turn::count_left))]
    fn count_left(self, rule: ZeroRule) -> u8
        ensures { result ≡ count_left self rule }
    {
        match rule {
            ZeroRule::SendsIdle => self.count,
            ZeroRule::SendsToken | ZeroRule::SendsHead(_) => self.count.saturating_sub(1),
        }
    }

    // Whether the queue would need a 66th place (14).
    #[tactic(auto, unfolding(crate::specs::Turn::overflows))]
    pub fn overflows(self, arrival: Car) -> bool
        ensures { result ≡ overflows self arrival }
    {
        keeps(arrival) && 65 <= self.count_left(self.rule(arrival))
    }

    // Whether the first `count` places of the queue name nothing that is missing.
    fn queue_names(self, limits: Limits, count: usize) -> bool
        requires { count ≤ 65 }
        ensures { result ≡ every (place_names limits.rules limits.nodes limits.locks self) count }
    {
        self.queue[..count]
            .iter()
            .all(|&car| cars::car_names(limits, car))
    }

    // Whether nothing of the zero node is what 13 refuses.
    #[tactic(auto, unfolding(crate::specs::Sound::zero_sound))]
    pub fn sound(self, limits: Limits) -> bool
        ensures { result ≡ zero_sound limits.rules limits.nodes limits.locks self }
    {
        self.count <= 65
            && cars::car_names(limits, self.car)
            && self.queue_names(limits, usize::from(self.count))
    }
}
