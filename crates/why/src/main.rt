// Says why bytes of a payload's records are what they are. The payload is on standard input, at most 4,097 bytes of it are read; each three words of the arguments are a question: an object, a
// block, and a byte of their record.
#![tactic(auto)]

use bits::Refusal;
use sources::WhyAnswer;
use std::env::Env;
use std::io;
use std::io::Print;

mod asking; // asking.rt: words of the arguments as numbers
mod steps; // steps.rt: the line of a step

// The questions that are answered, at the most.
const MOST_QUESTIONS: u32 = 1000;

fn show_steps<P: Print>(out: &P, a: WhyAnswer) -> io::Result<()> {
    for step in a.steps.iter().take(a.count as usize) {
        steps::show(out, *step)?;
    }
    Ok(())
}

// The lines of an answer.
fn show<P: Print>(out: &P, a: WhyAnswer) -> io::Result<()> {
    printing::line(out, &keys::REFUSAL, a.refusal as u64)?;
    printing::line(out, &keys::PLACE, a.place)?;
    if a.refusal == Refusal::EndsEarly.number() {
        printing::line(out, &keys::MISSING, a.missing as u64)?;
    }
    show_steps(out, a)
}

// The answer to a question.
fn answer<R: Env + Print>(rt: &R, payload: &[u8], question: u32) -> io::Result<()> {
    let object = asking::number(rt, question, 0);
    let block = asking::number(rt, question, 1);
    let byte = asking::number(rt, question, 2);
    show(rt, sources::why(payload, object, block, byte))
}

// All questions; there is one, though there are no words.
fn answer_all<R: Env + Print>(rt: &R, payload: &[u8]) -> io::Result<()> {
    answer(rt, payload, 0)?;
    for question in 1..MOST_QUESTIONS {
        if !asking::begins(rt, question) {
            break;
        }
        answer(rt, payload, question)?;
    }
    Ok(())
}

fn main(rt: HostRuntime) -> io::Result<()> {
    let mut payload = [0; printing::ROOM];
    let n = printing::read_full(&mut rt.reader(), &mut payload)?;
    answer_all(&rt, &payload[..n])
}
