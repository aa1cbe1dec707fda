// Operations, as a line writes them: `T0 5 9`, and of a client `client 9 T0 5 9`.
use crate::fault::{Fault, Problem};
use crate::line;
use crate::line::Line;
use std::fmt;

// A transaction, and the parameters that the line writes.
#[derive(Clone, Copy)]
pub(crate) struct Operation {
    pub transaction: u32,
    written: [Option<u32>; 4],
}

impl Operation {
    pub(crate) fn read(line: &mut Line) -> Result<Operation, Fault> {
        let transaction = match line.word_or_empty() {
            [b'T', digits @ ..] => line::decimal(digits, u32::MAX),
            _ => None,
        };
        let transaction = transaction.ok_or(line.fault(Problem::NoTransaction))?;
        let mut written = [None; 4];
        for parameter in written.iter_mut() {
            if line.has_more() {
                *parameter = Some(line.number(u32::MAX)?);
            }
        }
        Ok(Operation {
            transaction,
            written,
        })
    }

    // All four parameters; those that are not written are 0.
    pub(crate) fn parameters(&self) -> [u32; 4] {
        self.written.map(|parameter| parameter.unwrap_or(0))
    }
}

impl fmt::Display for Operation {
    fn fmt<W: fmt::Write>(&self, f: &mut fmt::Formatter<W>) -> fmt::Result {
        write!(f, "T{}(", self.transaction)?;
        for (i, parameter) in self.written.iter().flatten().enumerate() {
            let before = if i == 0 { "" } else { ", " };
            write!(f, "{before}{parameter}")?;
        }
        f.write_str(")")
    }
}

// An operation of a client.
#[derive(Clone, Copy)]
pub(crate) struct ClientOperation {
    pub client: u32,
    pub operation: Operation,
}

impl ClientOperation {
    pub(crate) fn read(line: &mut Line) -> Result<ClientOperation, Fault> {
        line.expect(b"client", Problem::NoClient)?;
        Ok(ClientOperation {
            client: line.number(u32::MAX)?,
            operation: Operation::read(line)?,
        })
    }
}

impl fmt::Display for ClientOperation {
    fn fmt<W: fmt::Write>(&self, f: &mut fmt::Formatter<W>) -> fmt::Result {
        write!(f, "{} of client {}", self.operation, self.client)
    }
}
