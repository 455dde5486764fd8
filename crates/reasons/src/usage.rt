// What each command takes.
use command::args::Words;
use faults::fault::Kind;
use faults::fault::Kind::{Bit, Crc, Frame, Hex, Message, Number, Switch};

// Which of the lines with a command's name a usage is for: all of them, those with so many words, or those
// with such a second word.
enum When {
    Always,
    Count(usize),
    Second(&'static [u8]),
}

// What a command takes: a kind of word for each one after its name, the fewest of them that it can do
// with, and the text. It may take more, up to one for each kind.
pub(crate) struct Usage {
    name: &'static [u8],
    when: When,
    pub(crate) kinds: &'static [Kind],
    pub(crate) least: usize,
    pub(crate) takes: &'static str,
}

// The usages. Of those with one name the first that is for a line is the line's.
static USAGES: [Usage; 32] = [
    Usage {
        name: b"open",
        when: When::Always,
        kinds: &[Number; 9],
        least: 9,
        takes: "9 numbers: open LENGTH S0 E0 S1 E1 S2 E2 S3 E3",
    },
    Usage {
        name: b"stream",
        when: When::Always,
        kinds: &[Number, Switch],
        least: 2,
        takes: "2 words: stream N on, or stream N off",
    },
    Usage {
        name: b"close",
        when: When::Always,
        kinds: &[Number],
        least: 1,
        takes: "1 number: close N",
    },
    Usage {
        name: b"state",
        when: When::Always,
        kinds: &[Number],
        least: 1,
        takes: "1 number: state N",
    },
    Usage {
        name: b"live",
        when: When::Always,
        kinds: &[Number],
        least: 1,
        takes: "1 number: live D",
    },
    Usage {
        name: b"free",
        when: When::Always,
        kinds: &[Number],
        least: 1,
        takes: "1 number: free D",
    },
    Usage {
        name: b"held",
        when: When::Always,
        kinds: &[Number],
        least: 1,
        takes: "1 number: held N, with N at most 15",
    },
    Usage {
        name: b"register",
        when: When::Always,
        kinds: &[Number; 6],
        least: 6,
        takes: "6 numbers: register W KEY BASE LENGTH PLACE RIGHTS",
    },
    Usage {
        name: b"drop",
        when: When::Always,
        kinds: &[Number],
        least: 1,
        takes: "1 number: drop W",
    },
    Usage {
        name: b"post",
        when: When::Always,
        kinds: &[Number, Number, Number],
        least: 3,
        takes: "3 numbers: post N START LENGTH",
    },
    Usage {
        name: b"take",
        when: When::Always,
        kinds: &[Number],
        least: 1,
        takes: "1 number: take N",
    },
    Usage {
        name: b"tick",
        when: When::Always,
        kinds: &[Number],
        least: 1,
        takes: "1 number: tick D",
    },
    Usage {
        name: b"reading",
        when: When::Always,
        kinds: &[Number],
        least: 1,
        takes: "1 number: reading D",
    },
    Usage {
        name: b"receive",
        when: When::Always,
        kinds: &[Number, Hex, Number],
        least: 2,
        takes: "2 or 3 words: receive N HEX, or receive N HEX LENT, with LENT at most 1,048,576",
    },
    Usage {
        name: b"offer",
        when: When::Always,
        kinds: &[Number, Hex, Number, Number],
        least: 2,
        takes: "2 to 4 words: offer N HEX [LENT [HELD]], with LENT at most 1,048,576 and HELD at most 131,200",
    },
    Usage {
        name: b"bytes",
        when: When::Always,
        kinds: &[Number, Number],
        least: 2,
        takes: "2 numbers: bytes START LENGTH, with START + LENGTH at most 1,048,576",
    },
    Usage {
        name: b"fill",
        when: When::Always,
        kinds: &[Number, Hex],
        least: 2,
        takes: "2 words: fill START HEX, which ends at most at byte 1,048,576",
    },
    Usage {
        name: b"fpdu",
        when: When::Always,
        kinds: &[Hex, Number],
        least: 2,
        takes: "2 words: fpdu HEX ROOM",
    },
    Usage {
        name: b"unframe",
        when: When::Always,
        kinds: &[Switch, Hex],
        least: 2,
        takes: "2 words: unframe on HEX, or unframe off HEX",
    },
    Usage {
        name: b"startup",
        when: When::Always,
        kinds: &[Frame, Bit, Bit, Hex, Number],
        least: 5,
        takes: "5 words: startup req|rep C R HEX ROOM",
    },
    Usage {
        name: b"unstartup",
        when: When::Always,
        kinds: &[Frame, Hex],
        least: 2,
        takes: "2 words: unstartup req HEX, or unstartup rep HEX",
    },
    Usage {
        name: b"unstartup2",
        when: When::Always,
        kinds: &[Frame, Hex],
        least: 2,
        takes: "2 words: unstartup2 req HEX, or unstartup2 rep HEX",
    },
    Usage {
        name: b"agree",
        when: When::Always,
        kinds: &[Number, Number, Number, Bit, Number, Number, Number],
        least: 7,
        takes: "7 numbers: agree IRD ORD KINDS A PEER-IRD PEER-ORD PEER-KINDS",
    },
    Usage {
        name: b"message",
        when: When::Second(b"write"),
        kinds: &[Message, Number, Number, Number, Hex],
        least: 5,
        takes: "5 words: message write LIMIT STAG TO HEX",
    },
    Usage {
        name: b"message",
        when: When::Second(b"send"),
        kinds: &[Message, Number, Number, Number, Number, Hex],
        least: 6,
        takes: "6 words: message send LIMIT OPCODE MSN STAG HEX",
    },
    Usage {
        name: b"message",
        when: When::Always,
        kinds: &[Message, Number, Number, Number, Number, Hex],
        least: 5,
        takes: "5 or 6 words: message write LIMIT STAG TO HEX, or message send LIMIT OPCODE MSN STAG HEX",
    },
    Usage {
        name: b"segment",
        when: When::Always,
        kinds: &[Number],
        least: 1,
        takes: "1 number: segment ROOM",
    },
    Usage {
        name: b"startup2",
        when: When::Count(6),
        kinds: &[Frame, Bit, Bit, Hex, Number],
        least: 5,
        takes: "5 or 9 words: startup2 req|rep C R HEX ROOM, or startup2 req|rep C R A IRD ORD KINDS HEX ROOM",
    },
    Usage {
        name: b"startup2",
        when: When::Always,
        kinds: &[Frame, Bit, Bit, Bit, Number, Number, Number, Hex, Number],
        least: 9,
        takes: "5 or 9 words: startup2 req|rep C R HEX ROOM, or startup2 req|rep C R A IRD ORD KINDS HEX ROOM",
    },
    Usage {
        name: b"crc",
        when: When::Count(2),
        kinds: &[Hex],
        least: 1,
        takes: "1 or 2 words: crc HEX, or crc CRC HEX",
    },
    Usage {
        name: b"crc",
        when: When::Always,
        kinds: &[Crc, Hex],
        least: 2,
        takes: "1 or 2 words: crc HEX, or crc CRC HEX",
    },
    Usage {
        name: b"join",
        when: When::Always,
        kinds: &[Crc, Crc, Number],
        least: 3,
        takes: "3 words: join CRC CRC LENGTH, with LENGTH at most 4,294,967,295",
    },
];

impl Usage {
    // Whether a line is one of those that the usage is for.
    fn is_of(&self, words: &Words) -> bool {
        self.name == words.word(0)
            && match self.when {
                When::Always => true,
                When::Count(n) => words.len() == n,
                When::Second(kind) => kind == words.word(1),
            }
    }
}

// What the command of a line takes, if its first word is the name of one.
pub(crate) fn usage_of(words: &Words) -> Option<&'static Usage> {
    USAGES.iter().find(|usage| usage.is_of(words))
}
