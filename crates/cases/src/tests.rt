// What takes a runtime, over a terminal in memory: more than the programs take, and reads and writes that fail.
use super::*;
use answer::Reason;
use std::alloc::Allocator;
use std::cell::{Cell, RefCell};
use std::fmt::Display;
use std::io::{BufRead, ErrorKind, Lines, Write};
use std::test::Fail;

// A terminal that gives a text and keeps what is printed, but for one print, which fails, after so many.
#[derive(Drop)]
struct Terminal<'a> {
    alloc: Global,
    text: &'a [u8],
    shown: RefCell<Vec<u8>>,
    prints: Cell<u32>,
}

impl<'a> Terminal<'a> {
    fn new(alloc: Global, text: &'a [u8], prints: u32) -> Terminal<'a> {
        Terminal {
            alloc,
            text,
            shown: RefCell::new(Vec::new(alloc)),
            prints: Cell::new(prints),
        }
    }

    fn count(&self) -> std::io::Result<()> {
        let left = self.prints.get();
        self.prints.set(left.wrapping_sub(1));
        if left == 0 {
            return Err(ErrorKind::BrokenPipe.into());
        }
        Ok(())
    }
}

impl Alloc for Terminal<'_> {
    type A = Global;

    fn alloc(&self) -> Global {
        self.alloc
    }
}

impl<'a> Input for Terminal<'a> {
    type Reader = &'a [u8];

    fn read_line<A: Allocator + Clone>(&self, buf: &mut String<A>) -> std::io::Result<usize> {
        self.reader().read_line(buf)
    }

    fn lines<A: Allocator>(&self, alloc: A) -> Lines<&'a [u8], A> {
        self.reader().lines(alloc)
    }

    fn reader(&self) -> &'a [u8] {
        self.text
    }
}

impl Print for Terminal<'_> {
    fn print<D: Display + Drop>(&self, value: D) -> std::io::Result<()> {
        self.count()?;
        let mut shown = self.shown.try_borrow_mut()?;
        write!(*shown, "{value}")
    }

    fn println<D: Display + Drop>(&self, value: D) -> std::io::Result<()> {
        self.print(format_args!("{value}\n"))
    }

    fn write_all(&self, bytes: &[u8]) -> std::io::Result<()> {
        self.count()?;
        let mut shown = self.shown.try_borrow_mut()?;
        shown.extend_from_slice(bytes)?;
        Ok(())
    }
}

// Over 20,000 bytes of cases with headings between, the first of 200 numbers, the last in a line that no newline ends.
#[test]
fn run_takes_any_length(rt: HostRuntime) -> Result<(), Fail> {
    let mut text = String::new(rt.alloc());
    let mut given = Vec::new(rt.alloc());
    let mut labels = Vec::new(rt.alloc());
    text.push_str("of 200\nlong")?;
    labels.extend_from_slice(b"long\n")?;
    for x in 0..200u32 {
        write!(text, ";{x}")?;
        given.push(x)?;
    }
    text.push_str("\nof one\n")?;
    for _ in 0..4000u32 {
        text.push_str("\u{e9};7\n")?;
        labels.extend_from_slice(b"\xc3\xa9\n")?;
        given.extend_from_slice(&[7, 0])?;
    }
    text.push_str("the end\nz;9")?;
    labels.extend_from_slice(b"z\n")?;
    given.extend_from_slice(&[9, 0])?;

    let terminal = Terminal::new(rt.alloc(), text.as_bytes(), 5000);
    let mut taken = Vec::new(rt.alloc());
    run(&terminal, 2, |numbers| {
        taken.extend_from_slice(numbers)?;
        Ok(())
    })?;
    assert_eq!(rt; taken, given);
    assert_eq!(rt; *terminal.shown.try_borrow()?, labels);
    Ok(())
}

// A number stands after each character that is none of ten digits; a digit that would make it too large is passed over.
#[test]
fn read_case_tells_headings(rt: HostRuntime) -> Result<(), Fail> {
    let terminal = Terminal::new(rt.alloc(), b"", 9);
    assert_eq!(rt; read_case(&terminal, "of one", 2)?.is_some(), false);
    let text = "a;3,4294967295 42949672961\u{e9}5\u{663}6;";
    let numbers = read_case(&terminal, text, 2)?.ok_or("a heading")?;
    assert_eq!(rt;
        numbers.as_slice(),
        [3, 4294967295, 4294967291, 5, 6, 0].as_slice()
    );
    let numbers = read_case(&terminal, "b;", 4)?.ok_or("a heading")?;
    assert_eq!(rt; numbers.as_slice(), [0, 0, 0, 0].as_slice());
    assert_eq!(rt;
        terminal.shown.try_borrow()?.as_slice(),
        b"a\nb\n".as_slice()
    );
    Ok(())
}

// Lines of any letter, and of more than 1,000 bytes.
#[test]
fn prints_whole_lines(rt: HostRuntime) -> Result<(), Fail> {
    let mut long = String::new(rt.alloc());
    long.push('\u{e9}')?;
    for _ in 0..100u32 {
        long.push_str(",4294967295")?;
    }
    long.push_str(
        "\nR,5,1,0\nclean\ndirty\nL,1,2,3,0\nV,4294967295\nE\nB,4294967295,4294967295\n",
    )?;

    let terminal = Terminal::new(rt.alloc(), b"", 9);
    print_line(&terminal, '\u{e9}', &[u32::MAX; 100])?;
    print_refusal(&terminal, Refusal::at(Reason::from(5), 1, 0))?;
    print_clean(&terminal, true)?;
    print_clean(&terminal, false)?;
    let lent = Lent::new(rt.alloc(), [3, 1], &[1, 2, 3, 0], [1, 0, 2])?;
    lent.print(&terminal)?;
    assert_eq!(rt; terminal.shown.try_borrow()?.as_slice(), long.as_bytes());
    Ok(())
}

#[test]
fn a_write_that_fails_is_told(rt: HostRuntime) -> Result<(), Fail> {
    let closed = || Terminal::new(rt.alloc(), b"a;1\n", 0);
    let told = [
        run(&closed(), 2, |_| Ok(())),
        read_case(&closed(), "a;1", 2).map(|_| ()),
        print_line(&closed(), 'L', &[1]),
        print_refusal(&closed(), Refusal::of(Reason::Sizes)),
        print_clean(&closed(), true),
    ];
    for result in told {
        assert_eq!(rt;
            result.map_err(|error| error.kind()),
            Err(ErrorKind::BrokenPipe)
        );
    }
    Ok(())
}

// Each of the four lines fails in turn; those before it are printed, those after it aren't.
#[test]
fn print_stops_at_a_line_that_fails(rt: HostRuntime) -> Result<(), Fail> {
    let lent = Lent::new(rt.alloc(), [3, 1], &[1, 2, 3, 0], [1, 0, 2])?;
    let shown = [
        "",
        "L,1,2,3,0\n",
        "L,1,2,3,0\nV,4294967295\n",
        "L,1,2,3,0\nV,4294967295\nE\n",
    ];
    for (prints, lines) in (0..4).zip(shown) {
        let terminal = Terminal::new(rt.alloc(), b"", prints);
        let result = lent.print(&terminal);
        assert_eq!(rt;
            result.map_err(|error| error.kind()),
            Err(ErrorKind::BrokenPipe)
        );
        assert_eq!(rt; terminal.shown.try_borrow()?.as_slice(), lines.as_bytes());
    }
    Ok(())
}

// A line that is no text, and an error of what is run; the cases before them are run.
#[test]
fn run_hands_errors_on(rt: HostRuntime) -> Result<(), Fail> {
    let broken = Terminal::new(rt.alloc(), b"a;1\nb\xff;2\nc;3\n", 9);
    let mut taken = Vec::new(rt.alloc());
    let result = run(&broken, 1, |numbers| {
        taken.extend_from_slice(numbers)?;
        Ok(())
    });
    assert_eq!(rt;
        result.map_err(|error| error.kind()),
        Err(ErrorKind::InvalidData)
    );
    assert_eq!(rt; taken.as_slice(), [1].as_slice());
    assert_eq!(rt; broken.shown.try_borrow()?.as_slice(), b"a\n".as_slice());

    let whole = Terminal::new(rt.alloc(), b"a;1\nb;2\nc;3\n", 9);
    taken.clear();
    let result = run(&whole, 1, |numbers| {
        taken.extend_from_slice(numbers)?;
        if numbers == [2].as_slice() {
            return Err(ErrorKind::StorageFull.into());
        }
        Ok(())
    });
    assert_eq!(rt;
        result.map_err(|error| error.kind()),
        Err(ErrorKind::StorageFull)
    );
    assert_eq!(rt; taken.as_slice(), [1, 2].as_slice());
    assert_eq!(rt; whole.shown.try_borrow()?.as_slice(), b"a\nb\n".as_slice());
    Ok(())
}
