// The plain types of document 01. What they mean stands in specs/.
#![tactic(auto)]

// A line of the register as its 20 bytes state it, with the letters of document 01.
#[derive(Clone, Copy)]
pub struct RawLine {
    pub kind: u64,
    pub unit: u64,
    pub code: u64,
    pub a: u64,
    pub b: u64,
    pub q: u64,
}

// An accepted line: its quantity, and its one kind.
#[derive(Clone, Copy)]
pub struct Line {
    pub quantity: u64,
    pub kind: Kind,
}

// The kinds of the method table, each with its own factors. Carbon is a content of carbon, methane one of CH4 and a share one of
// carbonate, in millionths; the other shares are in ten-thousandths; a factor stands in its table.
#[derive(Clone, Copy)]
pub enum Kind {
    Fuel {
        carbon: u64,
        oxidised: u64,
    },
    FlareCarbon {
        carbon: u64,
        unburned: u64,
    },
    FlareMethane {
        methane: u64,
        unburned: u64,
    },
    MetalIn {
        carbon: u64,
    },
    MetalOut {
        carbon: u64,
    },
    OpeningStock {
        carbon: u64,
    },
    ClosingStock {
        carbon: u64,
    },
    Feed {
        carbon: u64,
    },
    Product {
        carbon: u64,
    },
    ByProduct {
        carbon: u64,
    },
    CarbonateCharged {
        share: u64,
        factor: u64,
        calcined: u64,
    },
    KilnDust {
        share: u64,
        factor: u64,
        calcined: u64,
    },
    OtherCarbon {
        carbon: u64,
    },
    NitricAcid {
        factor: u64,
    },
}

// A part of a register: where it begins, and how long it is.
#[repr(C)]
#[derive(Clone, Copy)]
pub struct Part {
    pub offset: u64,
    pub length: u64,
}

// A part of one of two registers: 1 is the plant's, 2 its contractor's, by number since C is handed it.
#[repr(C)]
#[derive(Clone, Copy)]
pub struct Found {
    pub which: u32,
    pub offset: u64,
    pub length: u64,
}
