// Steps of let-rewriting on good and bad input, a line for each: the number of cells that a step gives, or its refusal.
#![tactic(auto)]

use calculus::Calculus;
use calculus::no::No;
use rewriting::LetRewriting;
use rewriting::redex::LET_CELL as LET;
use rewriting::rule::Rule;
use std::alloc::Global;
use std::fmt;

// Constructor 1 over two, function 3, marked function 3, function 4 over one, and a program rule.
const PAIR: u64 = (32 << 58) + (2 << 48) + 1;

const HEAVY: u64 = (33 << 58) + 3;

const LIGHT: u64 = (34 << 58) + 3;

const SHARE: u64 = (33 << 58) + (1 << 48) + 4;

const ARROW: u64 = (36 << 58) + (2 << 48);

// A step to be asked for with so many cells of space.
#[derive(Clone, Copy)]
struct Question<'q> {
    name: &'q str,
    rule: u8,
    argument: u8,
    inner: &'q [u8],
    redex: &'q [u64],
    room: usize,
}

impl<'q> Question<'q> {
    // With argument 0, no inner place and eight cells of space.
    fn plain(name: &'q str, rule: u8, redex: &'q [u64]) -> Question<'q> {
        Question {
            name,
            rule,
            argument: 0,
            inner: &[],
            redex,
            room: 8,
        }
    }
}

// What a step answers.
#[derive(Clone, Copy)]
struct Answer(Result<usize, No>);

impl fmt::Display for Answer {
    fn fmt<W: fmt::Write>(&self, f: &mut fmt::Formatter<W>) -> fmt::Result {
        match self.0 {
            Ok(n) => write!(f, "gives {n} cells"),
            Err(no) => write!(f, "{}", no.number()),
        }
    }
}

// Asks for each step and prints its answer.
fn ask(
    rt: &impl Print,
    alloc: Global,
    lets: &LetRewriting,
    questions: &[Question],
) -> anyhow::Result<()> {
    for q in questions {
        let mut space = vec![in alloc; 0; q.room]?;
        let answer = Answer(lets.step(q.rule, q.argument, q.inner, q.redex, &mut space));
        println!(rt; "{}: {answer}", q.name)?;
    }
    Ok(())
}

fn good(rt: &impl Print, alloc: Global, lets: &LetRewriting) -> anyhow::Result<()> {
    let let_in = Question::plain("LetIn", Rule::LetIn as u8, &[PAIR, 7, HEAVY]);
    let questions = [
        Question::plain("Fapp", Rule::Fapp as u8, &[SHARE, 7]),
        Question {
            argument: 1,
            ..let_in
        },
        Question::plain(
            "Bind of a marked function",
            Rule::Bind as u8,
            &[LET, LIGHT, PAIR, 0, 0],
        ),
        Question::plain("Elim", Rule::Elim as u8, &[LET, HEAVY, 6]),
        Question::plain("Flat", Rule::Flat as u8, &[LET, LET, HEAVY, 0, PAIR, 0, 6]),
    ];
    ask(rt, alloc, lets, &questions)
}

// Rules, arguments and inner places that no rule uses so.
fn bad_questions(rt: &impl Print, alloc: Global, lets: &LetRewriting) -> anyhow::Result<()> {
    let redex = [LET, HEAVY, PAIR, 0, 0];
    let of = |name, rule| Question::plain(name, rule, &redex);
    let questions = [
        of("Bind of a function", Rule::Bind as u8),
        of("rule 0", 0),
        of("rule 63", 63),
        Question {
            inner: &[0; 511],
            ..of("an inner place of 511 entries", Rule::Elim as u8)
        },
        Question {
            argument: 255,
            redex: &[SHARE, 7],
            ..of("Fapp by program rule 255", Rule::Fapp as u8)
        },
        Question {
            argument: 255,
            redex: &[PAIR, 7, HEAVY],
            ..of("LetIn of child 255", Rule::LetIn as u8)
        },
        Question {
            argument: 255,
            ..of("Bind with argument 255", Rule::Bind as u8)
        },
    ];
    ask(rt, alloc, lets, &questions)
}

// Cells that are no redex, and too little space.
fn bad_cells(rt: &impl Print, alloc: Global, lets: &LetRewriting) -> anyhow::Result<()> {
    let elim = Rule::Elim as u8;
    let questions = [
        Question::plain("no cells", Rule::Bind as u8, &[]),
        Question::plain("a let cut off", Rule::Bind as u8, &[LET, HEAVY]),
        Question::plain("a cell too many", elim, &[LET, HEAVY, 6, 6]),
        Question::plain("payload 65,535", elim, &[LET, HEAVY, 65_535]),
        Question::plain("payload 65,536", elim, &[LET, HEAVY, 65_536]),
        Question {
            room: 0,
            ..Question::plain("no space", elim, &[LET, HEAVY, 6])
        },
        Question {
            argument: 1,
            room: 4,
            ..Question::plain(
                "a cell of space too few",
                Rule::LetIn as u8,
                &[PAIR, 7, HEAVY],
            )
        },
    ];
    ask(rt, alloc, lets, &questions)
}

fn main(rt: HostRuntime) -> anyhow::Result<()> {
    let alloc = rt.alloc();
    let program = [ARROW, SHARE, 0, LET, HEAVY, PAIR, 1, 0];
    let lets = LetRewriting::new(program.to_vec(alloc)?);
    good(&rt, alloc, &lets)?;
    bad_questions(&rt, alloc, &lets)?;
    bad_cells(&rt, alloc, &lets)?;
    let fapp = |name| [Question::plain(name, Rule::Fapp as u8, &[SHARE, 7])];
    let none = LetRewriting::new(Vec::new(alloc));
    ask(&rt, alloc, &none, &fapp("Fapp over the empty program"))?;
    let refused = LetRewriting::new([ARROW, SHARE, 0, 1].to_vec(alloc)?);
    ask(
        &rt,
        alloc,
        &refused,
        &fapp("Fapp over a program that is refused"),
    )
}
