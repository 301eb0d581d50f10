// opcodes.rs: the opcodes of Lua 5.4, their numbers and their modes.
ghost use Rattle.std.specs.Borrow.{Bor};
ghost use Rattle.std.specs.Prelude.{◌≡◌, ok_or};
ghost use Rattle.format.specs.declared.refusal.Refusal.TheVariants.{NoOpcode};
ghost use Rattle.word_opcodes.specs.Table.{opcode_at, number_of, mode_of};

use format::refusal::Refusal;

// The 83 opcodes, in the order of their numbers (lopcodes.h, OpCode).
#[derive(Clone, Copy)]
pub enum Opcode54 {
    Move = 0,
    Loadi = 1,
    Loadf = 2,
    Loadk = 3,
    Loadkx = 4,
    Loadfalse = 5,
    Lfalseskip = 6,
    Loadtrue = 7,
    Loadnil = 8,
    Getupval = 9,
    Setupval = 10,
    Gettabup = 11,
    Gettable = 12,
    Geti = 13,
    Getfield = 14,
    Settabup = 15,
    Settable = 16,
    Seti = 17,
    Setfield = 18,
    Newtable = 19,
    SelfOp = 20,
    Addi = 21,
    Addk = 22,
    Subk = 23,
    Mulk = 24,
    Modk = 25,
    Powk = 26,
    Divk = 27,
    Idivk = 28,
    Bandk = 29,
    Bork = 30,
    Bxork = 31,
    Shri = 32,
    Shli = 33,
    Add = 34,
    Sub = 35,
    Mul = 36,
    Mod = 37,
    Pow = 38,
    Div = 39,
    Idiv = 40,
    Band = 41,
    Bor = 42,
    Bxor = 43,
    Shl = 44,
    Shr = 45,
    Mmbin = 46,
    Mmbini = 47,
    Mmbink = 48,
    Unm = 49,
    Bnot = 50,
    Not = 51,
    Len = 52,
    Concat = 53,
    Close = 54,
    Tbc = 55,
    Jmp = 56,
    Eq = 57,
    Lt = 58,
    Le = 59,
    Eqk = 60,
    Eqi = 61,
    Lti = 62,
    Lei = 63,
    Gti = 64,
    Gei = 65,
    Test = 66,
    Testset = 67,
    Call = 68,
    Tailcall = 69,
    Return = 70,
    Return0 = 71,
    Return1 = 72,
    Forloop = 73,
    Forprep = 74,
    Tforprep = 75,
    Tforcall = 76,
    Tforloop = 77,
    Setlist = 78,
    Closure = 79,
    Vararg = 80,
    Varargprep = 81,
    Extraarg = 82,
}

// How an instruction's fields lie in its word (lopcodes.h, OpMode).
#[derive(Clone, Copy)]
pub enum OpMode54 {
    IABC,
    IABx,
    IAsBx,
    IAx,
    IsJ,
}

impl Opcode54 {
    // The opcode of a number, if there is one. Ruled out: an opcode for 83; MOVE for every number.
    // A match and no table: a constant array is a value, copied at each call.
    pub fn from_u8(op: u8) -> Option<Opcode54>
        ensures { result ≡ opcode_at op }
    {
        match op {
            0 => Some(Opcode54::Move),
            1 => Some(Opcode54::Loadi),
            2 => Some(Opcode54::Loadf),
            3 => Some(Opcode54::Loadk),
            4 => Some(Opcode54::Loadkx),
            5 => Some(Opcode54::Loadfalse),
            6 => Some(Opcode54::Lfalseskip),
            7 => Some(Opcode54::Loadtrue),
            8 => Some(Opcode54::Loadnil),
            9 => Some(Opcode54::Getupval),
            10 => Some(Opcode54::Setupval),
            11 => Some(Opcode54::Gettabup),
            12 => Some(Opcode54::Gettable),
            13 => Some(Opcode54::Geti),
            14 => Some(Opcode54::Getfield),
            15 => Some(Opcode54::Settabup),
            16 => Some(Opcode54::Settable),
            17 => Some(Opcode54::Seti),
            18 => Some(Opcode54::Setfield),
            19 => Some(Opcode54::Newtable),
            20 => Some(Opcode54::SelfOp),
            21 => Some(Opcode54::Addi),
            22 => Some(Opcode54::Addk),
            23 => Some(Opcode54::Subk),
            24 => Some(Opcode54::Mulk),
            25 => Some(Opcode54::Modk),
            26 => Some(Opcode54::Powk),
            27 => Some(Opcode54::Divk),
            28 => Some(Opcode54::Idivk),
            29 => Some(Opcode54::Bandk),
            30 => Some(Opcode54::Bork),
            31 => Some(Opcode54::Bxork),
            32 => Some(Opcode54::Shri),
            33 => Some(Opcode54::Shli),
            34 => Some(Opcode54::Add),
            35 => Some(Opcode54::Sub),
            36 => Some(Opcode54::Mul),
            37 => Some(Opcode54::Mod),
            38 => Some(Opcode54::Pow),
            39 => Some(Opcode54::Div),
            40 => Some(Opcode54::Idiv),
            41 => Some(Opcode54::Band),
            42 => Some(Opcode54::Bor),
            43 => Some(Opcode54::Bxor),
            44 => Some(Opcode54::Shl),
            45 => Some(Opcode54::Shr),
            46 => Some(Opcode54::Mmbin),
            47 => Some(Opcode54::Mmbini),
            48 => Some(Opcode54::Mmbink),
            49 => Some(Opcode54::Unm),
            50 => Some(Opcode54::Bnot),
            51 => Some(Opcode54::Not),
            52 => Some(Opcode54::Len),
            53 => Some(Opcode54::Concat),
            54 => Some(Opcode54::Close),
            55 => Some(Opcode54::Tbc),
            56 => Some(Opcode54::Jmp),
            57 => Some(Opcode54::Eq),
            58 => Some(Opcode54::Lt),
            59 => Some(Opcode54::Le),
            60 => Some(Opcode54::Eqk),
            61 => Some(Opcode54::Eqi),
            62 => Some(Opcode54::Lti),
            63 => Some(Opcode54::Lei),
            64 => Some(Opcode54::Gti),
            65 => Some(Opcode54::Gei),
            66 => Some(Opcode54::Test),
            67 => Some(Opcode54::Testset),
            68 => Some(Opcode54::Call),
            69 => Some(Opcode54::Tailcall),
            70 => Some(Opcode54::Return),
            71 => Some(Opcode54::Return0),
            72 => Some(Opcode54::Return1),
            73 => Some(Opcode54::Forloop),
            74 => Some(Opcode54::Forprep),
            75 => Some(Opcode54::Tforprep),
            76 => Some(Opcode54::Tforcall),
            77 => Some(Opcode54::Tforloop),
            78 => Some(Opcode54::Setlist),
            79 => Some(Opcode54::Closure),
            80 => Some(Opcode54::Vararg),
            81 => Some(Opcode54::Varargprep),
            82 => Some(Opcode54::Extraarg),
            _ => None,
        }
    }

    // The opcode's number, which is the place of its variant. Ruled out: one too many; 0 for every opcode.
    pub fn number(self) -> u8
        ensures { result ≡ number_of self }
    {
        self as u8
    }

    // The opcode's mode. Ruled out: LOADI with an unsigned Bx; FORLOOP with a signed one.
    pub fn mode(self) -> OpMode54
        ensures { result ≡ mode_of self }
    {
        match self {
            Opcode54::Loadi | Opcode54::Loadf => OpMode54::IAsBx,
            Opcode54::Loadk
            | Opcode54::Loadkx
            | Opcode54::Forloop
            | Opcode54::Forprep
            | Opcode54::Tforprep
            | Opcode54::Tforloop
            | Opcode54::Closure => OpMode54::IABx,
            Opcode54::Jmp => OpMode54::IsJ,
            Opcode54::Extraarg => OpMode54::IAx,
            _ => OpMode54::IABC,
        }
    }
}

// As `from_u8`, with the refusal 28 in place of none. Ruled out: another refusal.
impl TryFrom<u8> for Opcode54 {
    type Error = Refusal;

    ghost try_from_gives = { λ op r. r ≡ ok_or (opcode_at op) NoOpcode };

    fn try_from(op: u8) -> Result<Self, Refusal> {
        Self::from_u8(op).ok_or(Refusal::NoOpcode)
    }
}
