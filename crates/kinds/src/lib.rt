// A reader's list of known kinds: the tiny tags and the board structures that it knows. Any subset of the seventeen is a valid list.

#![tactic(auto)]

ghost use Rattle.std.specs.Prelude.{◌≡◌};
ghost use Rattle.kinds.specs.Kinds.{listed, full, bare, extended, from_bits};

// The signatures of the board structures: eight bytes as the number they spell, the first lowest. First the four that count as on every list.
pub const EEPROM: u64 = 0x246D_6F72_7065_4524; // $Eeprom$

pub const EEPR_MAP: u64 = 0x7061_4D72_7065_4524; // $EeprMap

pub const BRD_INFO: u64 = 0x6F66_6E49_6472_4224; // $BrdInfo

pub const PROM_SIG: u64 = 0x6769_536D_6F72_5024; // $PromSig

pub const ACPI_TBL: u64 = 0x6C62_5469_7063_4124; // $AcpiTbl

pub const FPGA_NFO: u64 = 0x6F66_6E41_4750_4624; // $FPGAnfo

pub const GPIO_DAT: u64 = 0x7461_446F_6970_4724; // $GpioDat

pub const HD_CODEC: u64 = 0x6365_646F_4364_4824; // $HdCodec

pub const LOGO: u64 = 0x0000_246F_676F_4C24; // $Logo$

pub const MEM_CNFG: u64 = 0x6766_6E43_6D65_4D24; // $MemCnfg

pub const MAC_INFO: u64 = 0x6F66_6E49_6361_4D24; // $MacInfo

pub const U_CODE: u64 = 0x0024_6564_6F43_7524; // $uCode$

pub const VIDEO: u64 = 0x0024_6F65_6469_5624; // $Video$

// A kind of item: a tiny tag, or the eight bytes of a board structure's signature as the number they spell, the first lowest. (Numbers, since an image may
// have any of them, and those that no table names are shown too.)
#[derive(Clone, Copy)]
pub enum Kind {
    Tag(u8),
    Signature(u64),
}

// A reader's list of known kinds: a mark for each.
#[derive(Clone, Copy)]
pub struct Kinds {
    pub tag01: bool,
    pub tag10: bool,
    pub tag11: bool,
    pub tag60: bool,
    pub tag61: bool,
    pub tag62: bool,
    pub tag80: bool,
    pub tag81: bool,
    pub acpitbl: bool,
    pub fpganfo: bool,
    pub gpiodat: bool,
    pub hdcodec: bool,
    pub logo: bool,
    pub memcnfg: bool,
    pub macinfo: bool,
    pub ucode: bool,
    pub video: bool,
}

impl Kinds {
    // All seventeen kinds.
    pub const FULL: Kinds = Kinds {
        tag01: true,
        tag10: true,
        tag11: true,
        tag60: true,
        tag61: true,
        tag62: true,
        tag80: true,
        tag81: true,
        acpitbl: true,
        fpganfo: true,
        gpiodat: true,
        hdcodec: true,
        logo: true,
        memcnfg: true,
        macinfo: true,
        ucode: true,
        video: true,
    };

    // None of them.
    pub const BARE: Kinds = Kinds {
        tag01: false,
        tag10: false,
        tag11: false,
        tag60: false,
        tag61: false,
        tag62: false,
        tag80: false,
        tag81: false,
        acpitbl: false,
        fpganfo: false,
        gpiodat: false,
        hdcodec: false,
        logo: false,
        memcnfg: false,
        macinfo: false,
        ucode: false,
        video: false,
    };

    // The constant FULL.
    pub fn full_list() -> Kinds
        ensures { result ≡ full }
    {
        Kinds::FULL
    }

    // The constant BARE.
    pub fn bare_list() -> Kinds
        ensures { result ≡ bare }
    {
        Kinds::BARE
    }

    // Whether a tiny tag is on the list.
    pub fn has_tag(self, tag: u8) -> bool
        ensures { result ≡ listed self (Kind.Tag tag) }
    {
        match tag {
            0x01 => self.tag01,
            0x10 => self.tag10,
            0x11 => self.tag11,
            0x60 => self.tag60,
            0x61 => self.tag61,
            0x62 => self.tag62,
            0x80 => self.tag80,
            0x81 => self.tag81,
            _ => false,
        }
    }

    // Whether the board structure of a signature is on the list.
    pub fn has_signature(self, signature: u64) -> bool
        ensures { result ≡ listed self (Kind.Signature signature) }
    {
        match signature {
            ACPI_TBL => self.acpitbl,
            FPGA_NFO => self.fpganfo,
            GPIO_DAT => self.gpiodat,
            HD_CODEC => self.hdcodec,
            LOGO => self.logo,
            MEM_CNFG => self.memcnfg,
            MAC_INFO => self.macinfo,
            U_CODE => self.ucode,
            VIDEO => self.video,
            _ => false,
        }
    }

    // Whether a kind is on the list.
    pub fn has(self, kind: Kind) -> bool
        ensures { result ≡ listed self kind }
    {
        match kind {
            Kind::Tag(tag) => self.has_tag(tag),
            Kind::Signature(signature) => self.has_signature(signature),
        }
    }

    // The list with one kind more; the same list where the kind is none of the seventeen.
    pub fn with(self, kind: Kind) -> Kinds
        ensures { result ≡ extended self kind }
    {
        match kind {
            Kind::Tag(tag) => self.with_tag(tag),
            Kind::Signature(signature) => self.with_signature(signature),
        }
    }

    // The list with one tiny tag more. (A function for tags and one for signatures, as for `has`: they set different fields, so one over a kind would have
    // the lines of both.)
    fn with_tag(mut self, tag: u8) -> Kinds
        ensures { result ≡ extended self (Kind.Tag tag) }
    {
        self.tag01 = (tag == 0x01) | self.tag01;
        self.tag10 = (tag == 0x10) | self.tag10;
        self.tag11 = (tag == 0x11) | self.tag11;
        self.tag60 = (tag == 0x60) | self.tag60;
        self.tag61 = (tag == 0x61) | self.tag61;
        self.tag62 = (tag == 0x62) | self.tag62;
        self.tag80 = (tag == 0x80) | self.tag80;
        self.tag81 = (tag == 0x81) | self.tag81;
        self
    }

    // The list with one board structure more.
    fn with_signature(mut self, signature: u64) -> Kinds
        ensures { result ≡ extended self (Kind.Signature signature) }
    {
        self.acpitbl = (signature == ACPI_TBL) | self.acpitbl;
        self.fpganfo = (signature == FPGA_NFO) | self.fpganfo;
        self.gpiodat = (signature == GPIO_DAT) | self.gpiodat;
        self.hdcodec = (signature == HD_CODEC) | self.hdcodec;
        self.logo = (signature == LOGO) | self.logo;
        self.memcnfg = (signature == MEM_CNFG) | self.memcnfg;
        self.macinfo = (signature == MAC_INFO) | self.macinfo;
        self.ucode = (signature == U_CODE) | self.ucode;
        self.video = (signature == VIDEO) | self.video;
        self
    }

    // The list of the kinds whose bits are set: bits 0 to 7 the tags, bits 8 to 16 the board structures, in the order of the fields.
    // Higher bits count for nothing.
    pub fn from_bits(bits: u32) -> Kinds
        ensures { result ≡ from_bits bits }
    {
        Kinds {
            tag01: bits / 0x1 % 2 == 1,
            tag10: bits / 0x2 % 2 == 1,
            tag11: bits / 0x4 % 2 == 1,
            tag60: bits / 0x8 % 2 == 1,
            tag61: bits / 0x10 % 2 == 1,
            tag62: bits / 0x20 % 2 == 1,
            tag80: bits / 0x40 % 2 == 1,
            tag81: bits / 0x80 % 2 == 1,
            acpitbl: bits / 0x100 % 2 == 1,
            fpganfo: bits / 0x200 % 2 == 1,
            gpiodat: bits / 0x400 % 2 == 1,
            hdcodec: bits / 0x800 % 2 == 1,
            logo: bits / 0x1000 % 2 == 1,
            memcnfg: bits / 0x2000 % 2 == 1,
            macinfo: bits / 0x4000 % 2 == 1,
            ucode: bits / 0x8000 % 2 == 1,
            video: bits / 0x1_0000 % 2 == 1,
        }
    }
}
