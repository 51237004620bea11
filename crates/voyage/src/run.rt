// A whole run, and how it ended.
use crate::book::Book;
use crate::counts::Counts;
use crate::plan::Plan;
use crate::receiver::Receiver;
use crate::sender::Sender;
use crate::step::{Step, Way};
use crate::tracker::Tracker;
use packet::kind::PacketType;
use sent::head::Head;
use sent_lent::columns::Columns;
use sent_lent::pairs::Pairs;
use std::fmt;
use std::fmt::{Display, Formatter};
use std::io::Result;

// A run that has not ended by then is not finished.
const MOST_STEPS: usize = 60000;

// How a run ended. Every byte that was sent is to be read, in its place.
#[derive(Clone, Copy, PartialEq, Eq)]
pub(crate) enum Verdict {
    Equal,
    NotEqual,
    NotFinished,
}

// A run that ended.
#[derive(Clone, Copy)]
pub(crate) struct Ended {
    pub plan: Plan,
    pub counts: Counts,
    pub verdict: Verdict,
}

// Both ends.
#[derive(Drop)]
struct Ends<'a, 'b> {
    sender: Sender<'a>,
    receiver: Receiver<'b>,
}

impl Ends<'_, '_> {
    // All was sent, acknowledged and read.
    fn is_done(&self, plan: &Plan) -> bool {
        self.sender.is_done(plan) && self.receiver.is_done()
    }

    fn step(&mut self, book: &mut Book, step: Step) {
        match step {
            Step::Send(far, back) => self.sender.send(book, far, back),
            Step::Pass(way, start) => self.pass(book, way, start),
            Step::Build(most) => self.receiver.build(book, most),
            Step::Read(most) => self.receiver.read(book, most),
            Step::SendLost(position) => self.sender.send_lost(book, position),
            Step::TimeOut => self.sender.time_out(book),
        }
    }

    // What the channel hands over goes to the end that it is for. An ack is a State.
    fn pass(&mut self, book: &mut Book, way: Way, start: u64) {
        let Some(handed) = book.pass(way, start) else {
            return;
        };
        let packet = handed.packet;
        let clock = book.clock.saturating_sub(handed.back);
        let datagram = book.channel.bytes(handed.held);
        let told = match packet.header.packet_type {
            PacketType::State => self.sender.hear(packet, datagram, clock),
            _ => self.receiver.arrive(packet, datagram),
        };
        book.tell(told);
    }

    // How a run ended.
    fn verdict(&self, book: &Book) -> Verdict {
        let counts = &book.counts;
        if !self.is_done(&book.plan) {
            Verdict::NotFinished
        } else if counts.wrong == 0 && counts.bytes_in == counts.bytes_out {
            Verdict::Equal
        } else {
            Verdict::NotEqual
        }
    }
}

// Makes the run of a plan, with these steps, until all is done. What each step told is printed
// where that is asked for.
pub(crate) fn run<S: Fn(&Book, usize) -> Step>(
    rt: &impl Print,
    plan: Plan,
    steps: S,
    is_shown: bool,
) -> Result<Ended>
    requires { S.IsAlwaysCallable steps }
{
    let mut samples = Pairs { pairs: [0; 2048] };
    let mut packets = Columns {
        times: [0; 512],
        sizes: [0; 1024],
        marks: [0; 2048],
    };
    let tracker = Tracker {
        head: Head::new(plan.initial, plan.settings()).head,
        samples: &mut samples,
        packets: &mut packets,
    };
    let mut buffer = [0u8; 65536];
    let mut ends = Ends {
        sender: Sender::new(tracker),
        receiver: Receiver::new(&plan, &mut buffer[..plan.length.min(65536)]),
    };
    let mut book = Book::new(plan);
    for index in 0..MOST_STEPS {
        if ends.is_done(&plan) {
            break;
        }
        book.go_on();
        let step = steps(&book, index);
        ends.step(&mut book, step);
        if is_shown {
            let told = book.told;
            println!(rt; "{told}")?;
        }
    }
    Ok(Ended {
        plan,
        counts: book.counts,
        verdict: ends.verdict(&book),
    })
}

impl Display for Verdict {
    fn fmt<W: fmt::Write>(&self, f: &mut Formatter<W>) -> fmt::Result {
        f.write_str(match self {
            Verdict::Equal => "equal",
            Verdict::NotEqual => "NOT EQUAL",
            Verdict::NotFinished => "NOT FINISHED",
        })
    }
}

impl Display for Ended {
    fn fmt<W: fmt::Write>(&self, f: &mut Formatter<W>) -> fmt::Result {
        let seed = self.plan.seed;
        let initial = self.plan.initial.0;
        let counts = &self.counts;
        let verdict = self.verdict;
        write!(f, "seed {seed} from {initial}: {counts}, {verdict}")
    }
}
