// The bench where its input comes in messages, as from a socket of packets: tests alone, since no file and no pipe gives messages so long.
#![tactic(auto)]

#[cfg(test)]
mod tests {
    use std::alloc::{Allocator, Global};
    use std::cell::Cell;
    use std::fmt::Display;
    use std::io;
    use std::io::{BufRead, ErrorKind, Lines, Read};
    use std::test::Fail;

    // A first message, and one that asks for the total; each answer must be that nothing is missing.
    #[derive(Drop)]
    struct Messages<'a> {
        rt: &'a HostRuntime,
        first: &'a [u8],
        answers: Cell<usize>,
    }

    // The messages still to come. A read takes one, and loses what it has no room for.
    #[derive(Drop)]
    struct Coming<'a> {
        next: &'a [u8],
        last: &'a [u8],
    }

    impl<'a> Read for Coming<'a> {
        fn read(&mut self, buf: &mut [u8]) -> io::Result<usize> {
            let message = self.next;
            self.next = self.last;
            self.last = &[];
            let n = message.len().min(buf.len());
            buf[..n].copy_from_slice(&message[..n]);
            Ok(n)
        }
    }

    impl<'a> BufRead for Coming<'a> {
        fn fill_buf(&mut self) -> io::Result<&[u8]> {
            Ok(self.next)
        }

        fn consume(&mut self, amount: usize) {
            self.next = &self.next[amount.min(self.next.len())..];
        }
    }

    impl<'a> Alloc for Messages<'a> {
        type A = Global;

        fn alloc(&self) -> Global {
            self.rt.alloc()
        }
    }

    impl<'a> Input for Messages<'a> {
        type Reader = Coming<'a>;

        fn read_line<A: Allocator + Clone>(&self, buf: &mut String<A>) -> io::Result<usize> {
            self.reader().read_line(buf)
        }

        fn lines<A: Allocator>(&self, alloc: A) -> Lines<Coming<'a>, A> {
            self.reader().lines(alloc)
        }

        fn reader(&self) -> Coming<'a> {
            Coming {
                next: self.first,
                last: b"total\n",
            }
        }
    }

    impl<'a> Print for Messages<'a> {
        fn print<D: Display + Drop>(&self, _value: D) -> io::Result<()> {
            Err(io::Error::from(ErrorKind::InvalidData))
        }

        fn println<D: Display + Drop>(&self, _value: D) -> io::Result<()> {
            Err(io::Error::from(ErrorKind::InvalidData))
        }

        fn write_all(&self, bytes: &[u8]) -> io::Result<()> {
            if bytes != b"0 0\n".as_slice() {
                return Err(io::Error::from(ErrorKind::InvalidData));
            }
            self.answers.set(self.answers.get().saturating_add(1));
            Ok(())
        }
    }

    // `total` with blanks behind it, as long as is asked for.
    fn first_message(rt: &HostRuntime, len: usize) -> io::Result<Vec<u8, Global>> {
        let mut message = Vec::new(rt.alloc());
        message.extend_from_slice(b"total")?;
        message.resize(len.saturating_sub(1), b' ')?;
        message.push(b'\n')?;
        Ok(message)
    }

    // Both messages are answered, where each is at most as long as a block; behind that, the first is cut, and runs into the second.
    #[test]
    fn takes_messages_whole(rt: HostRuntime) -> Result<(), Fail> {
        for (len, whole, whole_on_less) in [
            (49152, true, true),
            (49153, true, false),
            (65536, true, false),
            (65537, false, false),
        ] {
            let first = first_message(&rt, len)?;
            let messages = Messages {
                rt: &rt,
                first: first.as_slice(),
                answers: Cell::new(0),
            };
            assert_eq!(rt; uslp_bench::run(&messages).is_ok(), whole, "run, {len}");
            assert_eq!(rt;
                messages.answers.get(),
                if whole { 2 } else { 0 },
                "run, {len}"
            );
            let messages = Messages {
                rt: &rt,
                first: first.as_slice(),
                answers: Cell::new(0),
            };
            assert_eq!(rt;
                uslp_bench::run_on_less_stack(&messages).is_ok(),
                whole_on_less,
                "on less stack, {len}"
            );
            assert_eq!(rt;
                messages.answers.get(),
                if whole_on_less { 2 } else { 0 },
                "on less stack, {len}"
            );
        }
        Ok(())
    }
}
