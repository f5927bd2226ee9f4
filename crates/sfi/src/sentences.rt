//! What each fault is, in a sentence. The page has the same: tools/build_page.py takes them out of
//! this text, by the fields `kind`, `name` and `says`, in this order and each a plain string.

/// A fault, by the kind and the name that its line has, and what it is.
#[derive(Drop)]
struct Sentence {
    kind: &'static str,
    name: &'static str,
    says: &'static str,
}

const SENTENCES: &[Sentence] = &[
    Sentence {
        kind: "source",
        name: "Word",
        says: "unknown word",
    },
    Sentence {
        kind: "source",
        name: "Register",
        says: "a register is expected",
    },
    Sentence {
        kind: "source",
        name: "Number",
        says: "a number, in its range, is expected",
    },
    Sentence {
        kind: "source",
        name: "Operands",
        says: "an operand is missing, is too much, or isn't the name or mark that is expected",
    },
    Sentence {
        kind: "source",
        name: "LabelTwice",
        says: "this sandbox already has a label or gate",
    },
    Sentence {
        kind: "source",
        name: "Directive",
        says: "this may not stand here, or there is no .sandbox before it",
    },
    Sentence {
        kind: "source",
        name: "Limit",
        says: "a name, the gates, the instructions, the data or the text are more than is allowed",
    },
    Sentence {
        kind: "rewrite",
        name: "ReservedRegister",
        says: "a register that no statement may name",
    },
    Sentence {
        kind: "rewrite",
        name: "Ecall",
        says: "only gates have an ecall: state one by .gate, and call it by its name",
    },
    Sentence {
        kind: "rewrite",
        name: "TooLarge",
        says: "the code has more bytes than the format allows",
    },
    Sentence {
        kind: "rewrite",
        name: "StackWrite",
        says: "sp may not be written so",
    },
    Sentence {
        kind: "rewrite",
        name: "Jump",
        says: "a jump may not write a data register, nor have an offset",
    },
    Sentence {
        kind: "link",
        name: "UnknownName",
        says: "no label or gate has the name",
    },
    Sentence {
        kind: "link",
        name: "BranchReach",
        says: "the target is too far: a branch reaches -4096 to 4094 bytes",
    },
    Sentence {
        kind: "link",
        name: "TooLarge",
        says: "the code has more bytes than the format allows",
    },
    Sentence {
        kind: "link",
        name: "TooManySandboxes",
        says: "there are more than 16 sandboxes",
    },
    Sentence {
        kind: "link",
        name: "Place",
        says: "a sandbox can't lie where --at says",
    },
    Sentence {
        kind: "names",
        name: "Unknown",
        says: "no label or gate has the name",
    },
    Sentence {
        kind: "names",
        name: "NoRoom",
        says: "the data have no room for the table of names",
    },
    Sentence {
        kind: "layout",
        name: "Magic",
        says: "the first four bytes are of no format",
    },
    Sentence {
        kind: "layout",
        name: "Count",
        says: "there aren't 1 to 16 sandboxes",
    },
    Sentence {
        kind: "layout",
        name: "Short",
        says: "bytes are missing at the end",
    },
    Sentence {
        kind: "layout",
        name: "Code",
        says: "the code's size isn't allowed, or its base is no multiple of it",
    },
    Sentence {
        kind: "layout",
        name: "Data",
        says: "the data's size isn't allowed, or their base is no multiple of it",
    },
    Sentence {
        kind: "layout",
        name: "GuardRoom",
        says: "there is no room for guard zones beside the data",
    },
    Sentence {
        kind: "layout",
        name: "Start",
        says: "the start is no start of a bundle in the code",
    },
    Sentence {
        kind: "layout",
        name: "Gates",
        says: "the gates are too many, out of order, at no start of a bundle, or of no service",
    },
    Sentence {
        kind: "layout",
        name: "Init",
        says: "there are more first data bytes than data bytes",
    },
    Sentence {
        kind: "layout",
        name: "Overlap",
        says: "regions or guard zones meet",
    },
    Sentence {
        kind: "layout",
        name: "Trailing",
        says: "bytes follow the last sandbox",
    },
    Sentence {
        kind: "input",
        name: "hex odd",
        says: "a digit is missing",
    },
    Sentence {
        kind: "input",
        name: "hex digit",
        says: "a character is no hexadecimal digit",
    },
    Sentence {
        kind: "input",
        name: "utf8",
        says: "the text isn't UTF-8",
    },
    Sentence {
        kind: "input",
        name: "too large",
        says: "there are more than 134217728 bytes",
    },
    Sentence {
        kind: "convert",
        name: "NotOld",
        says: "the image isn't of the first format",
    },
    Sentence {
        kind: "convert",
        name: "Words",
        says: "the image is of code in words",
    },
    Sentence {
        kind: "move",
        name: "NoSandbox",
        says: "the image has no such sandbox",
    },
    Sentence {
        kind: "move",
        name: "NoPlace",
        says: "the sandbox can't lie where --at says",
    },
    Sentence {
        kind: "option",
        name: "hex",
        says: "--input wants hexadecimal digits, two for each byte",
    },
];

/// What the fault is that a line names: what the first row says whose kind the line begins with and
/// whose name it contains; `None` where there is no such row. A new fault gets a row.
pub(crate) fn sentence_of(line: &str) -> Option<&'static str> {
    for it in SENTENCES {
        if line.starts_with(it.kind) && line.contains(it.name) {
            return Some(it.says);
        }
    }
    None
}
