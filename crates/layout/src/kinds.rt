// The kind of each field, row after row; and where each row's kinds start.
ghost use Rattle.std.specs.Prelude.{◌<◌, ◌≤◌, ◌≡◌, ◌^◌, get_or};
ghost use Rattle.layout.specs.Kinds.{field_count, kind, row_start};
ghost use Rattle.layout.specs.Packed.{size_unit, class_number, number_of, kind_number, packed_kinds, most_kind};
ghost use Rattle.layout.specs.Rows.{row_count, fields};

use super::rows::ENTRIES;

// The number of fields of all rows.
pub const FIELDS: usize = 1238;

// A kind's number is its class plus SIZE_UNIT times its size. A state keeps it, in range up to KIND_MOST, and `check` promises its answer.
pub const SIZE_UNIT: u64 = 16;

// The largest size: that of TXT, field 3 of 0450.
const SIZE_MOST: u64 = 65536;

// A class is below SIZE_UNIT.
pub const KIND_MOST: u64 = SIZE_UNIT * (SIZE_MOST + 1) - 1;

// What a field may hold, with the number of each.
#[derive(Clone, Copy, PartialEq, Eq)]
pub enum Class {
    // past a row's last field
    NoField = 0,
    // field 1 of every line
    Code = 1,
    // the code that a 9900 line speaks of
    LineCode = 2,
    // C: at most so many bytes
    Text = 3,
    // N: exactly so many digits
    Digits = 4,
    // N without a size
    Number = 5,
    // N with so many decimals
    Decimals = 6,
    // ddmmyyyy
    Date = 7,
    // the fixed texts
    Lfpd = 8,
    Brasil = 9,
    // field 2 of an opening: one digit
    Opens = 10,
    // field 2 of a closing and of 9999
    Count = 11,
    // digits with check digits
    Cnpj = 12,
    Cpf = 13,
    // no field's class: a number may name them
    Unused14 = 14,
    Unused15 = 15,
}

// A class, and the size that it asks for; 0 where it asks for none.
#[derive(Clone, Copy, PartialEq, Eq)]
pub struct Kind {
    pub class: Class,
    pub size: u64,
}

impl Kind {
    #[tactic(auto, unfolding(crate::specs::Packed::number_of))]
    pub fn number(self) -> u64
        requires { number_of self < 2 ^ 64 }
        ensures { result ≡ number_of self }
    {
        self.class as u64 + SIZE_UNIT * self.size
    }

    // The kind that has this number: each number is one's, also where no field has it.
    #[tactic(auto, unfolding(crate::specs::Packed::number_of))]
    pub fn from_number(number: u64) -> Kind
        ensures { number_of result ≡ number }
    {
        Kind {
            class: class_of(number % SIZE_UNIT),
            size: number / SIZE_UNIT,
        }
    }
}

// The class that has this number.
fn class_of(number: u64) -> Class
    requires { number < size_unit }
    ensures { class_number result ≡ number }
{
    match number {
        0 => Class::NoField,
        1 => Class::Code,
        2 => Class::LineCode,
        3 => Class::Text,
        4 => Class::Digits,
        5 => Class::Number,
        6 => Class::Decimals,
        7 => Class::Date,
        8 => Class::Lfpd,
        9 => Class::Brasil,
        10 => Class::Opens,
        11 => Class::Count,
        12 => Class::Cnpj,
        13 => Class::Cpf,
        14 => Class::Unused14,
        _ => Class::Unused15,
    }
}

// A kind in one line.
macro_rules! kind {
    ($class:ident, $size:literal) => {
        Kind {
            class: Class::$class,
            size: $size,
        }
    };
}

// What stands past a row's fields.
pub const NO_FIELD: Kind = kind!(NoField, 0);

// The kinds of the table below.
pub const CODE: Kind = kind!(Code, 0);

const LINE_CODE: Kind = kind!(LineCode, 4);

const C0: Kind = kind!(Text, 0);

const C1: Kind = kind!(Text, 1);

const C2: Kind = kind!(Text, 2);

const C4: Kind = kind!(Text, 4);

const C5: Kind = kind!(Text, 5);

const C6: Kind = kind!(Text, 6);

const C9: Kind = kind!(Text, 9);

const C10: Kind = kind!(Text, 10);

const C14: Kind = kind!(Text, 14);

const C20: Kind = kind!(Text, 20);

const C45: Kind = kind!(Text, 45);

const C128: Kind = kind!(Text, 128);

const C255: Kind = kind!(Text, 255);

const C65536: Kind = kind!(Text, 65536);

const N1: Kind = kind!(Digits, 1);

const N2: Kind = kind!(Digits, 2);

const N3: Kind = kind!(Digits, 3);

const N4: Kind = kind!(Digits, 4);

const N5: Kind = kind!(Digits, 5);

const N6: Kind = kind!(Digits, 6);

const N7: Kind = kind!(Digits, 7);

const N8: Kind = kind!(Digits, 8);

const N10: Kind = kind!(Digits, 10);

const N11: Kind = kind!(Digits, 11);

const N14: Kind = kind!(Digits, 14);

const N_ANY: Kind = kind!(Number, 0);

const DECIMALS_2: Kind = kind!(Decimals, 2);

const DECIMALS_3: Kind = kind!(Decimals, 3);

const DECIMALS_4: Kind = kind!(Decimals, 4);

const DECIMALS_6: Kind = kind!(Decimals, 6);

pub const DATE: Kind = kind!(Date, 8);

const CNPJ: Kind = kind!(Cnpj, 14);

const CPF: Kind = kind!(Cpf, 11);

const LFPD: Kind = kind!(Lfpd, 4);

const BRASIL: Kind = kind!(Brasil, 6);

pub const OPENS: Kind = kind!(Opens, 1);

const COUNT: Kind = kind!(Count, 0);

// Where the kinds of row r start in the table.
pub fn start_at(r: usize) -> usize
    requires { r ≤ row_count }
    ensures { result ≡ row_start r }
{
    STARTS[r]
}

// The kind at this place of the table. Behind a row's kinds stand those of the next row.
pub fn kind_in_table(index: usize) -> Kind
    requires { index < field_count }
    ensures { number_of result ≡ get_or packed_kinds index 0 }
{
    TABLE[index]
}

// The kind of field n of row r. A row's fields are numbered from 1.
pub fn kind_at(r: usize, n: usize) -> Kind
    requires { (r < row_count) × (1 ≤ n) × (n ≤ fields r) }
    ensures { number_of result ≡ kind_number (kind r n) }
{
    kind_in_table(start_at(r) + (n - 1))
}

static STARTS: [usize; ENTRIES] = [
    0, // 0000
    20, // 0001
    22, // 0005
    36, // 0025
    39, // 0030
    57, // 0100
    75, // 0150
    88, // 0175
    98, // 0200
    103, // 0205
    108, // 0210
    117, // 0215
    121, // 0400
    125, // 0450
    128, // 0455
    130, // 0460
    146, // 0465
    170, // 0470
    181, // 0990
    183, // C001
    185, // C020
    213, // C040
    219, // C300
    240, // C305
    242, // C310
    246, // C550
    263, // C560
    277, // C600
    299, // C605
    307, // C610
    324, // C615
    330, // C990
    332, // E001
    334, // E003
    339, // E020
    369, // E025
    386, // E050
    402, // E055
    411, // E060
    434, // E065
    440, // E080
    458, // E085
    468, // E100
    493, // E105
    504, // E120
    529, // E140
    548, // E300
    551, // E305
    574, // E310
    584, // E330
    598, // E340
    622, // E350
    632, // E360
    643, // E500
    647, // E520
    654, // E525
    661, // E540
    677, // E550
    684, // E560
    694, // E990
    696, // F001
    698, // F020
    704, // F025
    710, // F030
    716, // F035
    726, // F200
    730, // F205
    736, // F210
    739, // F215
    751, // F220
    759, // F225
    774, // F230
    780, // F250
    784, // F255
    803, // F990
    805, // G001
    807, // G020
    811, // G025
    828, // G030
    839, // G050
    858, // G400
    868, // G410
    882, // G420
    906, // G430
    909, // G440
    916, // G450
    931, // G460
    946, // G990
    948, // H001
    950, // H020
    962, // H030
    978, // H040
    981, // H050
    984, // H060
    987, // H990
    989, // 8001
    992, // 8020
    996, // 8030
    1007, // 8040
    1015, // 8050
    1019, // 8100
    1023, // 8110
    1029, // 8160
    1033, // 8165
    1039, // 8170
    1046, // 8175
    1051, // 8180
    1057, // 8300
    1061, // 8310
    1071, // 8500
    1075, // 8505
    1081, // 8510
    1085, // 8515
    1087, // 8525
    1094, // 8530
    1105, // 8535
    1114, // 8540
    1122, // 8545
    1126, // 8550
    1130, // 8555
    1134, // 8560
    1146, // 8565
    1149, // 8570
    1161, // 8580
    1171, // 8585
    1176, // 8590
    1191, // 8990
    1193, // 9001
    1195, // 9020
    1216, // 9030
    1219, // 9040
    1231, // 9900
    1234, // 9990
    1236, // 9999
    FIELDS, // no row
];

static TABLE: [Kind; FIELDS] = [
    // 0000
    CODE, LFPD, // LFPD
    DATE, // DT_INI
    DATE, // DT_FIN
    C255, // NOME_EMPR
    CNPJ, // CNPJ
    C2, // UF
    C255, // IE
    N7, // COD_MUN
    C255, // IM
    C0, // VAZIO1
    C9, // SUFRAMA
    N4, // COD_VER
    N1, // COD_FIN
    N2, // COD_CTD
    BRASIL, // PAIS
    C255, // FANTASIA
    N11, // NIRE
    CPF, // CPF
    C0, // VAZIO2
    // 0001
    CODE, OPENS, // IND_DAD
    // 0005
    CODE, C255, // NOME_RESP
    N3, // COD_ASSIN
    CPF, // CPF_RESP
    N8, // CEP
    C255, // END
    C255, // NUM
    C255, // COMPL
    C255, // BAIRRO
    N8, // CEP_CP
    N_ANY, // CP
    C255, // FONE
    C255, // FAX
    C255, // EMAIL
    // 0025
    CODE, C5, // COD_BF_ICMS
    C5, // COD_BF_ISS
    // 0030
    CODE, N1, // IND_ED
    N1, // IND_ARQ
    N1, // PRF_ISS
    N1, // PRF_ICMS
    N1, // PRF_RIDF
    N1, // PRF_RUDF
    N1, // PRF_LMC
    N1, // PRF_RV
    N1, // PRF_RI
    N1, // IND_EC
    N1, // IND_ISS
    N1, // IND_RT
    N1, // IND_ICMS
    N1, // IND_ST
    N1, // IND_AT
    N1, // IND_IPI
    N1, // IND_RI
    // 0100
    CODE, C255, // NOME
    N3, // COD_ASSIN
    CNPJ, // CNPJ
    CPF, // CPF
    C10, // CRC
    N8, // CEP
    C255, // END
    C255, // NUM
    C255, // COMPL
    C255, // BAIRRO
    C2, // UF
    N7, // COD_MUN
    N8, // CEP_CP
    N_ANY, // CP
    C255, // FONE
    C255, // FAX
    C255, // EMAIL
    // 0150
    CODE, C255, // COD_PART
    C255, // NOME
    N5, // COD_PAIS
    CNPJ, // CNPJ
    CPF, // CPF
    C0, // VAZIO
    C2, // UF
    C255, // IE
    C255, // IE_ST
    N7, // COD_MUN
    C255, // IM
    C9, // SUFRAMA
    // 0175
    CODE, N8, // CEP
    C255, // END
    C255, // NUM
    C255, // COMPL
    C255, // BAIRRO
    N8, // CEP_CP
    N_ANY, // CP
    C255, // FONE
    C255, // FAX
    // 0200
    CODE, C255, // COD_ITEM
    C255, // DESCR_ITEM
    N2, // COD_GEN
    N4, // COD_LST
    // 0205
    CODE, C255, // COD_ITEM_ANT
    C255, // DESCR_ITEM_ANT
    DATE, // DT_INI
    DATE, // DT_FIN
    // 0210
    CODE, C255, // COD_ITEM_COMP
    C255, // UNID_ITEM
    DECIMALS_6, // QTD_COMP
    C255, // UNID_COMP
    DATE, // DT_INI_COMP
    DATE, // DT_FIN_COMP
    N_ANY, // IND_ALT
    DECIMALS_6, // TX_ALT
    // 0215
    CODE, C255, // COD_ITEM_ANP
    DATE, // DT_INI
    DATE, // DT_FIN
    // 0400
    CODE, C255, // COD_NAT
    C255, // DESCR_NAT
    C4, // COP
    // 0450
    CODE, C255, // COD_INF_OBS
    C65536, // TXT
    // 0455
    CODE, C255, // NORMA
    // 0460
    CODE, C255, // IND_DA
    C255, // DESCR_DA
    C2, // UF
    N7, // COD_MUN
    N6, // PER_REF
    C255, // NUM_DA
    DECIMALS_2, // VL_DA
    DATE, // DT_VCTO
    DECIMALS_2, // VL_DESC
    DECIMALS_2, // VL_MOR
    DECIMALS_2, // VL_JRS
    DECIMALS_2, // VL_MUL
    DECIMALS_2, // VL_PGTO
    DATE, // DT_PGTO
    C255, // AUT_BCO
    // 0465
    CODE, N1, // IND_OPER
    N1, // IND_EMIT
    CNPJ, // CNPJ
    CPF, // CPF
    C2, // UF
    C255, // IE
    N7, // COD_MUN
    C255, // IM
    C2, // COD_MOD
    N2, // COD_SIT
    C255, // SER
    N_ANY, // SUB
    C45, // CHV_NFE_CTE
    N_ANY, // NUM_DOC
    DATE, // DT_DOC
    DECIMALS_2, // VL_DOC
    DECIMALS_2, // VL_ISS
    DECIMALS_2, // VL_RT
    DECIMALS_2, // VL_ICMS
    DECIMALS_2, // VL_ICMS_ST
    DECIMALS_2, // VL_AT
    DECIMALS_2, // VL_IPI
    DECIMALS_2, // VOL
    // 0470
    CODE, C2, // COD_MOD
    N_ANY, // ECF_CX
    C20, // ECF_FAB
    N_ANY, // CRO
    N_ANY, // CRZ
    N_ANY, // NUM_DOC
    DATE, // DT_DOC
    DECIMALS_2, // VL_DOC
    DECIMALS_2, // VL_ISS
    DECIMALS_2, // VL_ICMS
    // 0990
    CODE, COUNT, // QTD_LIN_0
    // C001
    CODE, OPENS, // IND_DAD
    // C020
    CODE, N1, // IND_OPER
    N1, // IND_EMIT
    C255, // COD_PART
    C2, // COD_MOD
    N2, // COD_SIT
    C255, // SER
    N_ANY, // NUM_DOC
    C45, // CHV_NFE
    DATE, // DT_EMIS
    DATE, // DT_DOC
    C255, // COD_NAT
    N1, // IND_PGTO
    DECIMALS_2, // VL_DOC
    DECIMALS_2, // VL_DESC
    DECIMALS_2, // VL_ACMO
    DECIMALS_2, // VL_MERC
    DECIMALS_2, // VL_FRT
    DECIMALS_2, // VL_SEG
    DECIMALS_2, // VL_OUT_DA
    DECIMALS_2, // VL_OP_ISS
    DECIMALS_2, // VL_BC_ICMS
    DECIMALS_2, // VL_ICMS
    DECIMALS_2, // VL_BC_ST
    DECIMALS_2, // VL_ICMS_ST
    DECIMALS_2, // VL_AT
    DECIMALS_2, // VL_IPI
    C255, // COD_INF_OBS
    // C040
    CODE, N7, // COD_MUN_SERV
    DECIMALS_2, // VL_BC_ISS
    DECIMALS_2, // VL_ISS
    DECIMALS_2, // VL_BC_RT_ISS
    DECIMALS_2, // VL_RT_ISS
    // C300
    CODE, N_ANY, // NUM_ITEM
    C255, // COD_ITEM
    C255, // UNID
    DECIMALS_6, // VL_UNIT
    DECIMALS_6, // QTD
    DECIMALS_2, // VL_DESC_I
    DECIMALS_2, // VL_ACMO_I
    DECIMALS_2, // VL_ITEM
    N8, // COD_NCM
    N4, // CST
    N4, // CFOP
    DECIMALS_2, // VL_BC_ICMS_I
    DECIMALS_2, // ALIQ_ICMS
    DECIMALS_2, // VL_ICMS_I
    DECIMALS_2, // VL_BC_ST_I
    DECIMALS_2, // ALIQ_ST
    DECIMALS_2, // VL_ICMS_ST_I
    DECIMALS_2, // VL_BC_IPI
    DECIMALS_2, // ALIQ_IPI
    DECIMALS_2, // VL_IPI_I
    // C305
    CODE, C255, // in no sheet
    // C310
    CODE, N2, // CTISS
    DECIMALS_2, // VL_BC_ISS_I
    DECIMALS_2, // ALIQ_ISS
    // C550
    CODE, CPF, // CPF_CONS
    CNPJ, // CNPJ_CONS
    C2, // COD_MOD
    N2, // COD_SIT
    C255, // SER
    N_ANY, // SUB
    N_ANY, // NUM_DOC
    DATE, // DT_DOC
    C4, // COP
    DECIMALS_2, // VL_DOC
    DECIMALS_2, // VL_DESC
    DECIMALS_2, // VL_ACMO
    DECIMALS_2, // VL_MERC
    DECIMALS_2, // VL_BC_ICMS
    DECIMALS_2, // VL_ICMS
    C255, // COD_INF_OBS
    // C560
    CODE, N_ANY, // NUM_ITEM
    C255, // COD_ITEM
    C255, // UNID
    DECIMALS_6, // VL_UNIT
    DECIMALS_6, // QTD
    DECIMALS_2, // VL_DESC_I
    DECIMALS_2, // VL_ACMO_I
    DECIMALS_2, // VL_ITEM
    N4, // CST
    N4, // CFOP
    DECIMALS_2, // VL_BC_ICMS_I
    DECIMALS_2, // ALIQ_ICMS
    DECIMALS_2, // VL_ICMS_I
    // C600
    CODE, CPF, // CPF_CONS
    CNPJ, // CNPJ_CONS
    C2, // COD_MOD
    N2, // COD_SIT
    N_ANY, // ECF_CX
    C20, // ECF_FAB
    N_ANY, // CRO
    N_ANY, // CRZ
    N_ANY, // NUM_DOC
    DATE, // DT_DOC
    C4, // COP
    DECIMALS_2, // VL_DOC
    DECIMALS_2, // VL_CANC_ICMS
    DECIMALS_2, // VL_DESC_ICMS
    DECIMALS_2, // VL_ACMO_ICMS
    DECIMALS_2, // VL_OP_ISS
    DECIMALS_2, // VL_BC_ICMS
    DECIMALS_2, // VL_ICMS
    DECIMALS_2, // VL_ISN
    DECIMALS_2, // VL_NT
    DECIMALS_2, // VL_ST
    // C605
    CODE, DECIMALS_2, // VL_CANC_ISS
    DECIMALS_2, // VL_DESC_ISS
    DECIMALS_2, // VL_ACMO_ISS
    DECIMALS_2, // VL_BC_ISS
    DECIMALS_2, // VL_ISS
    DECIMALS_2, // VL_ISN_ISS
    DECIMALS_2, // VL_NT_ISS
    // C610
    CODE, N_ANY, // NUM_ITEM
    C255, // COD_ITEM
    C255, // UNID
    DECIMALS_6, // VL_UNIT
    DECIMALS_6, // QTD
    DECIMALS_2, // VL_DESC_I
    DECIMALS_2, // VL_ACMO_I
    DECIMALS_2, // VL_ITEM
    N4, // CST
    N4, // CFOP
    DECIMALS_2, // VL_BC_ICMS_I
    DECIMALS_2, // ALIQ_ICMS
    DECIMALS_2, // VL_ICMS_I
    DECIMALS_2, // VL_ISN_I
    DECIMALS_2, // VL_NT_I
    DECIMALS_2, // VL_ST_I
    // C615
    CODE, DECIMALS_2, // VL_BC_ISS_I
    DECIMALS_2, // ALIQ_ISS
    DECIMALS_2, // VL_ISS_I
    DECIMALS_2, // VL_ISN_ISS_I
    DECIMALS_2, // VL_NT_ISS_I
    // C990
    CODE, COUNT, // QTD_LIN_C
    // E001
    CODE, OPENS, // IND_DAD
    // E003
    CODE, C2, // UF
    C4, // LIN_NOM
    N_ANY, // CAMPO_INI
    N_ANY, // QTD_CAMPO
    // E020
    CODE, N1, // IND_OPER
    N1, // IND_EMIT
    C255, // COD_PART
    C2, // COD_MOD
    N2, // COD_SIT
    C255, // SER
    N_ANY, // NUM_DOC
    C45, // CHV_NFE
    DATE, // DT_EMIS
    DATE, // DT_DOC
    C255, // COD_NAT
    C4, // COP
    C255, // NUM_LCTO
    N1, // IND_PGTO
    DECIMALS_2, // VL_CONT
    DECIMALS_2, // VL_OP_ISS
    DECIMALS_2, // VL_BC_ICMS
    DECIMALS_2, // VL_ICMS
    DECIMALS_2, // VL_ICMS_ST
    DECIMALS_2, // VL_ST_E
    DECIMALS_2, // VL_ST_S
    DECIMALS_2, // VL_AT
    DECIMALS_2, // VL_ISNT_ICMS
    DECIMALS_2, // VL_OUT_ICMS
    DECIMALS_2, // VL_BC_IPI
    DECIMALS_2, // VL_IPI
    DECIMALS_2, // VL_ISNT_IPI
    DECIMALS_2, // VL_OUT_IPI
    C255, // COD_INF_OBS
    // E025
    CODE, DECIMALS_2, // VL_CONT_P
    DECIMALS_2, // VL_OP_ISS_P
    N4, // CFOP
    DECIMALS_2, // VL_BC_ICMS_P
    DECIMALS_2, // ALIQ_ICMS
    DECIMALS_2, // VL_ICMS_P
    DECIMALS_2, // VL_BC_ST_P
    DECIMALS_2, // VL_ICMS_ST_P
    DECIMALS_2, // VL_ISNT_ICMS_P
    DECIMALS_2, // VL_OUT_ICMS_P
    DECIMALS_2, // VL_BC_IPI_P
    DECIMALS_2, // VL_IPI_P
    DECIMALS_2, // VL_ISNT_IPI_P
    DECIMALS_2, // VL_OUT_IPI_P
    N1, // IND_PETR
    N1, // IND_IMUN
    // E050
    CODE, C2, // COD_MOD
    N_ANY, // QTD_CANC
    C255, // SER
    N_ANY, // SUB
    N_ANY, // NUM_DOC_INI
    N_ANY, // NUM_DOC_FIN
    DATE, // DT_DOC
    C4, // COP
    C255, // NUM_LCTO
    DECIMALS_2, // VL_CONT
    DECIMALS_2, // VL_BC_ICMS
    DECIMALS_2, // VL_ICMS
    DECIMALS_2, // VL_ISNT_ICMS
    DECIMALS_2, // VL_OUT_ICMS
    C255, // COD_INF_OBS
    // E055
    CODE, DECIMALS_2, // VL_CONT_P
    N4, // CFOP
    DECIMALS_2, // VL_BC_ICMS_P
    DECIMALS_2, // ALIQ_ICMS
    DECIMALS_2, // VL_ICMS_P
    DECIMALS_2, // VL_ISNT_ICMS_P
    DECIMALS_2, // VL_OUT_ICMS_P
    N1, // IND_IMUN
    // E060
    CODE, C2, // COD_MOD
    N_ANY, // ECF_CX
    C20, // ECF_FAB
    N_ANY, // CRO
    N_ANY, // CRZ
    DATE, // DT_DOC
    N_ANY, // NUM_DOC_INI
    N_ANY, // NUM_DOC_FIN
    DECIMALS_2, // GT_INI
    DECIMALS_2, // GT_FIN
    DECIMALS_2, // VL_BRT
    DECIMALS_2, // VL_CANCEL_ICMS
    DECIMALS_2, // VL_DESC_ICMS
    DECIMALS_2, // VL_ACMO_ICMS
    DECIMALS_2, // VL_OP_ISS
    DECIMALS_2, // VL_LIQ
    DECIMALS_2, // VL_BC_ICMS
    DECIMALS_2, // VL_ICMS
    DECIMALS_2, // VL_ISN
    DECIMALS_2, // VL_NT
    DECIMALS_2, // VL_ST
    C255, // COD_INF_OBS
    // E065
    CODE, N4, // CFOP
    DECIMALS_2, // VL_BC_ICMS_P
    DECIMALS_2, // ALIQ_ICMS
    DECIMALS_2, // VL_ICMS_P
    N1, // IND_IMUN
    // E080
    CODE, N1, // IND_TOT
    C2, // COD_MOD
    N_ANY, // NUM_MR
    DATE, // DT_DOC
    DECIMALS_2, // VL_BRT
    DECIMALS_2, // VL_CANC_ICMS
    DECIMALS_2, // VL_DESC_ICMS
    DECIMALS_2, // VL_ACMO_ICMS
    DECIMALS_2, // VL_OP_ISS
    C4, // COP
    C255, // NUM_LCTO
    DECIMALS_2, // VL_CONT
    DECIMALS_2, // VL_BC_ICMS
    DECIMALS_2, // VL_ICMS
    DECIMALS_2, // VL_ISNT_ICMS
    DECIMALS_2, // VL_ST
    N1, // IND_OBS
    // E085
    CODE, DECIMALS_2, // VL_CONT_P
    DECIMALS_2, // VL_OP_ISS_P
    N4, // CFOP
    DECIMALS_2, // VL_BC_ICMS_P
    DECIMALS_2, // ALIQ_ICMS
    DECIMALS_2, // VL_ICMS_P
    DECIMALS_2, // VL_ISNT_ICMS_P
    DECIMALS_2, // VL_ST_P
    N1, // IND_IMUN
    // E100
    CODE, N1, // IND_OPER
    N1, // IND_EMIT
    C255, // COD_PART
    N7, // COD_MUN_SERV
    C2, // COD_MOD
    N2, // COD_SIT
    N_ANY, // QTD_CANC
    C255, // SER
    N_ANY, // SUB
    N2, // COD_CONS
    N_ANY, // NUM_DOC
    N_ANY, // QTD_DOC
    DATE, // DT_EMIS
    DATE, // DT_DOC
    C4, // COP
    C255, // NUM_LCTO
    DECIMALS_2, // VL_CONT
    DECIMALS_2, // VL_OP_ISS
    DECIMALS_2, // VL_BC_ICMS
    DECIMALS_2, // VL_ICMS
    DECIMALS_2, // VL_ICMS_ST
    DECIMALS_2, // VL_ISNT_ICMS
    DECIMALS_2, // VL_OUT_ICMS
    C255, // COD_INF_OBS
    // E105
    CODE, DECIMALS_2, // VL_CONT_P
    DECIMALS_2, // VL_OP_ISS_P
    N4, // CFOP
    DECIMALS_2, // VL_BC_ICMS_P
    DECIMALS_2, // ALIQ_ICMS
    DECIMALS_2, // VL_ICMS_P
    DECIMALS_2, // VL_ICMS_ST_P
    DECIMALS_2, // VL_ISNT_ICMS_P
    DECIMALS_2, // VL_OUT_ICMS_P
    N1, // IND_PETR
    // E120
    CODE, N1, // IND_OPER
    N1, // IND_EMIT
    C255, // COD_PART
    N7, // COD_MUN_SERV
    C2, // COD_MOD
    N2, // COD_SIT
    C255, // SER
    N_ANY, // SUB
    N_ANY, // NUM_DOC
    C45, // CHV_CTE
    DATE, // DT_EMIS
    DATE, // DT_DOC
    C4, // COP
    C255, // NUM_LCTO
    N1, // IND_PGTO
    DECIMALS_2, // VL_CONT
    N4, // CFOP
    DECIMALS_2, // VL_BC_ICMS
    DECIMALS_2, // ALIQ_ICMS
    DECIMALS_2, // VL_ICMS
    DECIMALS_2, // VL_ICMS_ST
    DECIMALS_2, // VL_ISNT_ICMS
    DECIMALS_2, // VL_OUT_ICMS
    C255, // COD_INF_OBS
    // E140
    CODE, N7, // COD_MUN_SERV
    C2, // COD_MOD
    N_ANY, // QTD_CANC
    C255, // SER
    N_ANY, // SUB
    N_ANY, // NUM_DOC_INI
    N_ANY, // NUM_DOC_FIN
    DATE, // DT_DOC
    C4, // COP
    C255, // NUM_LCTO
    DECIMALS_2, // VL_CONT
    N4, // CFOP
    DECIMALS_2, // VL_BC_ICMS
    DECIMALS_2, // ALIQ_ICMS
    DECIMALS_2, // VL_ICMS
    DECIMALS_2, // VL_ISNT_ICMS
    DECIMALS_2, // VL_OUT_ICMS
    C255, // COD_INF_OBS
    // E300
    CODE, DATE, // DT_INI
    DATE, // DT_FIN
    // E305
    CODE, N1, // IND_MRO
    N1, // IND_OPER
    DATE, // DT_DOC
    C4, // COP
    C255, // NUM_LCTO
    N_ANY, // QTD_LCTO
    DECIMALS_2, // VL_CONT
    DECIMALS_2, // VL_OP_ISS
    DECIMALS_2, // VL_BC_ICMS
    DECIMALS_2, // VL_ICMS
    DECIMALS_2, // VL_ICMS_ST
    DECIMALS_2, // VL_ST_ENT
    DECIMALS_2, // VL_ST_FNT
    DECIMALS_2, // VL_ST_UF
    DECIMALS_2, // VL_ST_OE
    DECIMALS_2, // VL_AT
    DECIMALS_2, // VL_ISNT_ICMS
    DECIMALS_2, // VL_OUT_ICMS
    DECIMALS_2, // VL_BC_IPI
    DECIMALS_2, // VL_IPI
    DECIMALS_2, // VL_ISNT_IPI
    DECIMALS_2, // VL_OUT_IPI
    // E310
    CODE, DECIMALS_2, // VL_CONT
    DECIMALS_2, // VL_OP_ISS
    N4, // CFOP
    DECIMALS_2, // VL_BC_ICMS
    DECIMALS_2, // VL_ICMS
    DECIMALS_2, // VL_ICMS_ST
    DECIMALS_2, // VL_ISNT_ICMS
    DECIMALS_2, // VL_OUT_ICMS
    N1, // IND_IMUN
    // E330
    CODE, N1, // IND_TOT
    DECIMALS_2, // VL_CONT
    DECIMALS_2, // VL_OP_ISS
    DECIMALS_2, // VL_BC_ICMS
    DECIMALS_2, // VL_ICMS
    DECIMALS_2, // VL_ICMS_ST
    DECIMALS_2, // VL_ST_ENT
    DECIMALS_2, // VL_ST_FNT
    DECIMALS_2, // VL_ST_UF
    DECIMALS_2, // VL_ST_OE
    DECIMALS_2, // VL_AT
    DECIMALS_2, // VL_ISNT_ICMS
    DECIMALS_2, // VL_OUT_ICMS
    // E340
    CODE, DECIMALS_2, // VL_01
    DECIMALS_2, // VL_02
    DECIMALS_2, // VL_03
    DECIMALS_2, // VL_04
    DECIMALS_2, // VL_05
    DECIMALS_2, // VL_06
    DECIMALS_2, // VL_07
    DECIMALS_2, // VL_08
    DECIMALS_2, // VL_09
    DECIMALS_2, // VL_10
    DECIMALS_2, // VL_11
    DECIMALS_2, // VL_12
    DECIMALS_2, // VL_13
    DECIMALS_2, // VL_14
    DECIMALS_2, // VL_15
    DECIMALS_2, // VL_16
    DECIMALS_2, // VL_17
    DECIMALS_2, // VL_18
    DECIMALS_2, // VL_19
    DECIMALS_2, // VL_20
    DECIMALS_2, // VL_21
    DECIMALS_2, // VL_22
    DECIMALS_2, // VL_99
    // E350
    CODE, C2, // UF_AJ
    N3, // COD_AJ
    DECIMALS_2, // VL_AJ
    C255, // NUM_DA
    C255, // NUM_PROC
    N1, // IND_PROC
    C255, // DESCR_PROC
    C255, // COD_INF_OBS
    N_ANY, // IND_AP
    // E360
    CODE, C2, // UF_OR
    N3, // COD_OR
    N6, // PER_REF
    C255, // COD_REC
    DECIMALS_2, // VL_ICMS_REC
    DATE, // DT_VCTO
    C255, // NUM_PROC
    N1, // IND_PROC
    C255, // DESCR_PROC
    C255, // COD_INF_OBS
    // E500
    CODE, DATE, // DT_INI
    DATE, // DT_FIN
    C255, // in no sheet
    // E520
    CODE, DECIMALS_2, // VL_CONT
    N4, // CFOP
    DECIMALS_2, // VL_BC_IPI
    DECIMALS_2, // VL_IPI
    DECIMALS_2, // VL_ISNT_IPI
    DECIMALS_2, // VL_OUT_IPI
    // E525
    CODE, N1, // IND_TOT
    DECIMALS_2, // VL_CONT
    DECIMALS_2, // VL_BC_IPI
    DECIMALS_2, // VL_IPI
    DECIMALS_2, // VL_ISNT_IPI
    DECIMALS_2, // VL_OUT_IPI
    // E540
    CODE, DECIMALS_2, // VL_001
    DECIMALS_2, // VL_002
    DECIMALS_2, // VL_003
    DECIMALS_2, // VL_004
    DECIMALS_2, // VL_005
    DECIMALS_2, // VL_006
    DECIMALS_2, // VL_007
    DECIMALS_2, // VL_009
    DECIMALS_2, // VL_010
    DECIMALS_2, // VL_011
    DECIMALS_2, // VL_012
    DECIMALS_2, // VL_013
    DECIMALS_2, // VL_008
    DECIMALS_2, // VL_016
    DECIMALS_2, // VL_017
    // E550
    CODE, N3, // COD_AJ
    DECIMALS_2, // VL_AJ
    C1, // IND_DOC
    C255, // NUM_DOC
    C255, // DESCR_AJ
    C255, // COD_INF_OBS
    // E560
    CODE, C4, // COD_OR_IPI
    N6, // PER_REF
    N4, // COD_REC_IPI
    DECIMALS_2, // VL_IPI_REC
    DATE, // DT_VCTO
    N1, // IND_DOC
    C255, // NUM_DOC
    C255, // DESCR_AJ
    C255, // COD_INF_OBS
    // E990
    CODE, COUNT, // QTD_LIN_E
    // F001
    CODE, OPENS, // IND_DAD
    // F020
    CODE, N1, // IND_RIDF
    DATE, // DT_INI
    DATE, // DT_FIN
    C255, // CRED
    C255, // UF_GR
    // F025
    CODE, C2, // UF_SF
    N7, // COD_MUN
    N_ANY, // NUM_AUT
    DATE, // DT_AUT
    C255, // COD_PART
    // F030
    CODE, N2, // IND_DOC
    C2, // COD_MOD
    C255, // SER
    N_ANY, // SUB
    N_ANY, // QTD_AUT
    // F035
    CODE, C2, // COD_MOD
    C255, // SER
    N_ANY, // SUB
    DATE, // DT_LIB
    N_ANY, // NUM_DOC
    N_ANY, // NUM_DOC_INI
    N_ANY, // NUM_DOC_FIN
    N_ANY, // QTD_DEV
    C255, // COD_INF_OBS
    // F200
    CODE, N1, // IND_LMC
    DATE, // DT_INI
    DATE, // DT_FIN
    // F205
    CODE, C255, // BOMBA
    C255, // EQP_FAB
    N14, // EQP_CNPJ
    C255, // EQP_MOD
    N1, // IND_BOMB
    // F210
    CODE, C255, // COD_ITEM
    C255, // COD_INF_OBS
    // F215
    CODE, N1, // IND_TOT
    DATE, // DT_MOV
    DECIMALS_3, // ESTQ_INI
    DECIMALS_3, // ENTRADAS
    DECIMALS_3, // SAIDAS
    DECIMALS_3, // ESTQ_FIN
    DECIMALS_3, // ESTQ_FECH
    DECIMALS_3, // PERDAS
    DECIMALS_3, // SOBRAS
    DECIMALS_3, // VL_UNIT
    DECIMALS_2, // VL_SAID
    // F220
    CODE, C255, // TANQUE
    DECIMALS_3, // VOL_INI
    DECIMALS_3, // VOL_ENTR
    DECIMALS_3, // VOL_SAID
    DECIMALS_3, // VOL_FECH
    DECIMALS_3, // VOL_PRD
    DECIMALS_3, // VOL_SBR
    // F225
    CODE, N1, // IND_OPER
    N1, // IND_EMIT
    CNPJ, // CNPJ
    C2, // UF
    C255, // IE
    C2, // COD_MOD
    C255, // SER
    N_ANY, // NUM_DOC
    DATE, // DT_DOC
    DECIMALS_2, // VL_DOC
    DECIMALS_2, // VL_ICMS
    DECIMALS_2, // VL_ICMS_ST
    DECIMALS_3, // VOL
    C255, // COD_INF_OBS
    // F230
    CODE, C255, // BOMBA
    C255, // BICO
    N_ANY, // ENC_FIN
    N_ANY, // ENC_INI
    DECIMALS_2, // VOL_AFER
    // F250
    CODE, N1, // IND_RV
    DATE, // DT_INI
    DATE, // DT_FIN
    // F255
    CODE, DATE, // DT_ENTR
    N1, // IND_PROP
    C255, // COD_PART_ENT
    C2, // UF
    N7, // COD_MUN
    C255, // ID_VEIC
    C255, // MARCA
    C255, // MODELO
    N4, // ANO
    C255, // DESCR
    C255, // CHASSI
    C255, // MOTOR
    DECIMALS_2, // VL_VEIC
    N1, // IND_NEG
    DATE, // DT_SAID
    C255, // COD_PART_SAI
    DECIMALS_2, // VL_OPER
    C255, // COD_INF_OBS
    // F990
    CODE, COUNT, // QTD_LIN_F
    // G001
    CODE, OPENS, // IND_DAD
    // G020
    CODE, N1, // IND_GEF
    DATE, // DT_INI
    DATE, // DT_FIN
    // G025
    CODE, N1, // IND_OPER
    N1, // IND_EMIT
    C2, // COD_MOD
    C255, // SER
    N_ANY, // SUB
    N_ANY, // NUM_DOC_INI
    N_ANY, // NUM_DOC_FIN
    N_ANY, // QTD_DOC
    N_ANY, // QTD_CANC
    DECIMALS_2, // VL_CONT
    DECIMALS_2, // VL_ISS
    DECIMALS_2, // VL_RT_ISS
    DECIMALS_2, // VL_ICMS
    DECIMALS_2, // VL_ICMS_ST
    DECIMALS_2, // VL_AT
    DECIMALS_2, // VL_IPI
    // G030
    CODE, C2, // COD_MOD
    N_ANY, // ECF_CX
    N_ANY, // CRO
    N_ANY, // NUM_DOC_INI
    N_ANY, // NUM_DOC_FIN
    N_ANY, // QTD_DOC
    DECIMALS_2, // VL_CONT
    DECIMALS_2, // VL_ISS
    DECIMALS_2, // VL_ICMS
    DECIMALS_2, // VL_ST
    // G050
    CODE, N1, // IND_MRO
    N1, // IND_OPER
    DATE, // DT_DOC
    C4, // COP
    N_ANY, // QTD_LCTO
    DECIMALS_2, // VL_CONT
    DECIMALS_2, // VL_CONT_PRP
    DECIMALS_2, // VL_CONT_OUT
    DECIMALS_2, // VL_ISS
    DECIMALS_2, // VL_RT_ISS
    DECIMALS_2, // VL_ICMS
    DECIMALS_2, // VL_ICMS_ST
    DECIMALS_2, // VL_ST_ENT
    DECIMALS_2, // VL_ST_FNT
    DECIMALS_2, // VL_ST_UF
    DECIMALS_2, // VL_ST_OE
    DECIMALS_2, // VL_AT
    DECIMALS_2, // VL_IPI
    // G400
    CODE, DECIMALS_2, // VL_CONT
    DECIMALS_2, // VL_OP_ISS
    N4, // CFOP
    DECIMALS_2, // VL_BC_ICMS
    DECIMALS_2, // VL_ICMS
    DECIMALS_2, // VL_BC_ST
    DECIMALS_2, // VL_ICMS_ST
    DECIMALS_2, // VL_ISNT_ICMS
    DECIMALS_2, // VL_OUT_ICMS
    // G410
    CODE, N1, // IND_TOT
    DECIMALS_2, // VL_CONT
    DECIMALS_2, // VL_OP_ISS
    DECIMALS_2, // VL_BC_ICMS
    DECIMALS_2, // VL_ICMS
    DECIMALS_2, // VL_ICMS_ST
    DECIMALS_2, // VL_ST_ENT
    DECIMALS_2, // VL_ST_FNT
    DECIMALS_2, // VL_ST_UF
    DECIMALS_2, // VL_ST_OE
    DECIMALS_2, // VL_AT
    DECIMALS_2, // VL_ISNT_ICMS
    DECIMALS_2, // VL_OUT_ICMS
    // G420
    CODE, DECIMALS_2, // VL_01
    DECIMALS_2, // VL_02
    DECIMALS_2, // VL_03
    DECIMALS_2, // VL_04
    DECIMALS_2, // VL_05
    DECIMALS_2, // VL_06
    DECIMALS_2, // VL_07
    DECIMALS_2, // VL_08
    DECIMALS_2, // VL_09
    DECIMALS_2, // VL_10
    DECIMALS_2, // VL_11
    DECIMALS_2, // VL_12
    DECIMALS_2, // VL_13
    DECIMALS_2, // VL_14
    DECIMALS_2, // VL_15
    DECIMALS_2, // VL_16
    DECIMALS_2, // VL_17
    DECIMALS_2, // VL_18
    DECIMALS_2, // VL_19
    DECIMALS_2, // VL_20
    DECIMALS_2, // VL_21
    DECIMALS_2, // VL_22
    DECIMALS_2, // VL_99
    // G430
    CODE, N3, // COD_AJ
    DECIMALS_2, // VL_AJ
    // G440
    CODE, C2, // UF_OR
    N3, // COD_OR
    N6, // PER_REF
    C255, // COD_REC
    DECIMALS_2, // VL_ICMS_REC
    DATE, // DT_VCTO
    // G450
    CODE, N1, // IND_OPER
    DECIMALS_2, // VL_CONT_NC
    DECIMALS_2, // VL_CONT_C
    DECIMALS_2, // VL_OP_ISS
    DECIMALS_2, // VL_BC_ICMS_NC
    DECIMALS_2, // VL_BC_ICMS_C
    DECIMALS_2, // VL_ICMS
    DECIMALS_2, // VL_ICMS_ST
    DECIMALS_2, // VL_ICMS_PETR
    DECIMALS_2, // VL_ICMS_EEL
    DECIMALS_2, // VL_ICMS_ST_OUT
    DECIMALS_2, // VL_AT
    DECIMALS_2, // VL_ISNT_ICMS
    DECIMALS_2, // VL_OUT_ICMS
    // G460
    CODE, C2, // UF
    DECIMALS_2, // VL_CONT_NC_UF
    DECIMALS_2, // VL_CONT_C_UF
    DECIMALS_2, // VL_OP_ISS_UF
    DECIMALS_2, // VL_BC_ICMS_NC_UF
    DECIMALS_2, // VL_BC_ICMS_C_UF
    DECIMALS_2, // VL_ICMS_UF
    DECIMALS_2, // VL_ICMS_ST_UF
    DECIMALS_2, // VL_ICMS_PETR_UF
    DECIMALS_2, // VL_ICMS_EEL_UF
    DECIMALS_2, // VL_ICMS_ST_OUT_UF
    DECIMALS_2, // VL_AT_UF
    DECIMALS_2, // VL_ISNT_ICMS_UF
    DECIMALS_2, // VL_OUT_ICMS_UF
    // G990
    CODE, COUNT, // QTD_LIN_G
    // H001
    CODE, OPENS, // IND_DAD
    // H020
    CODE, N1, // IND_DT
    DATE, // DT_INV
    DECIMALS_2, // VL_ESTQ
    DECIMALS_2, // VL_ICMS_REC
    DECIMALS_2, // VL_IPI_REC
    DECIMALS_2, // VL_PIS_REC
    DECIMALS_2, // VL_COFINS_REC
    DECIMALS_2, // VL_TRIB_NC
    DECIMALS_2, // VL_ESTQ_NC
    C255, // NUM_LCTO
    C255, // COD_INF_OBS
    // H030
    CODE, N1, // IND_POSSE
    C255, // COD_PART
    N1, // IND_ITEM
    N8, // COD_NCM
    C255, // COD_ITEM
    C255, // UNID
    DECIMALS_6, // VL_UNIT
    DECIMALS_6, // QTD
    DECIMALS_2, // VL_ITEM
    DECIMALS_2, // VL_ICMS_REC_I
    DECIMALS_2, // VL_IPI_REC_I
    DECIMALS_2, // VL_PIS_REC_I
    DECIMALS_2, // VL_COFINS_REC_I
    DECIMALS_2, // VL_TRIB_NC_I
    C255, // COD_INF_OBS
    // H040
    CODE, N1, // IND_POSSE
    DECIMALS_2, // VL_SUB_POSSE
    // H050
    CODE, N1, // IND_ITEM
    DECIMALS_2, // VL_SUB_ITEM
    // H060
    CODE, N8, // COD_NCM
    DECIMALS_2, // VL_SUB_NCM
    // H990
    CODE, COUNT, // QTD_LIN_H
    // 8001
    CODE, OPENS, // IND_DAD
    C2, // UF
    // 8020
    CODE, N1, // IND_QVA
    DATE, // DT_INI
    DATE, // DT_FIN
    // 8030
    CODE, N1, // IND_TOT
    N1, // IND_OPER
    N1, // IND_DET
    N7, // COD_MUN
    DECIMALS_2, // VL_CONT_MUN
    DECIMALS_2, // VL_OP_ISS_MUN
    DECIMALS_2, // VL_ICMS_ST_MUN
    DECIMALS_2, // VL_TE_MUN
    DECIMALS_2, // VL_TS_MUN
    DECIMALS_4, // VL_AD_MUN
    // 8040
    CODE, N1, // IND_CFOP
    DECIMALS_2, // VL_CONT
    DECIMALS_2, // VL_OP_ISS
    N4, // CFOP
    DECIMALS_2, // VL_ICMS_ST
    DECIMALS_2, // VL_TE_CFOP
    DECIMALS_2, // VL_TS_CFOP
    // 8050
    CODE, DECIMALS_2, // VL_TE
    DECIMALS_2, // VL_TS
    DECIMALS_4, // VL_AD
    // 8100
    CODE, N1, // IND_QAB
    DATE, // DT_INI
    DATE, // DT_FIN
    // 8110
    CODE, N1, // IND_ORIG
    DECIMALS_2, // VL_EEL
    DECIMALS_2, // VL_COM
    DECIMALS_2, // VL_ATV
    DECIMALS_2, // VL_OUT
    // 8160
    CODE, N1, // IND_QCA
    DATE, // DT_INI
    DATE, // DT_FIN
    // 8165
    CODE, DECIMALS_2, // VL_REM
    DECIMALS_2, // VL_ACUM
    DECIMALS_2, // VL_PU
    DECIMALS_2, // VL_TUT
    DECIMALS_2, // VL_SLD
    // 8170
    CODE, DECIMALS_2, // VL_CA_EX
    DECIMALS_2, // VL_CA_OS
    C255, // NUM_PROC
    N1, // IND_PROC
    C255, // DESCR_PROC
    C255, // COMENT
    // 8175
    CODE, N1, // IND_UT
    DECIMALS_2, // VL_UT
    C255, // IE
    C255, // COMENT
    // 8180
    CODE, N1, // IND_CD
    DECIMALS_2, // VL_DEB
    C255, // COD_REC
    C255, // IE
    C255, // COMENT
    // 8300
    CODE, N1, // IND_QCC
    DATE, // DT_INI
    DATE, // DT_FIN
    // 8310
    CODE, N1, // IND_CC
    N2, // COD_CONS
    DECIMALS_2, // VL_CONT
    DECIMALS_2, // VL_OP_ISS
    DECIMALS_2, // VL_ICMS_ST
    DECIMALS_2, // VL_BC_ICMS
    DECIMALS_2, // VL_ICMS
    DECIMALS_2, // VL_ISNT_ICMS
    DECIMALS_2, // VL_OUT_ICMS
    // 8500
    CODE, N1, // IND_GIAF
    DATE, // DT_INI
    DATE, // DT_FIN
    // 8505
    CODE, N1, // IND_BF
    N5, // DE_BF
    DATE, // DT_BF
    N_ANY, // IND_NAT
    N1, // IND_ICMS_MIN
    // 8510
    CODE, N5, // DE_BF_AJ
    DATE, // DT_BF_AJ
    N_ANY, // IND_NAT_AJ
    // 8515
    CODE, N_ANY, // IND_AP
    // 8525
    CODE, C255, // COD_ITEM
    C255, // DESCR_ITEM
    N10, // NBMSH
    C255, // UNID
    DECIMALS_2, // PCT_BF
    N4, // PRZ_BF
    // 8530
    CODE, N1, // IND_OPER
    N1, // IND_EMIT
    C255, // COD_PART
    C2, // COD_MOD
    C255, // SER
    N_ANY, // NUM_DOC
    DATE, // DT_DOC
    DECIMALS_2, // VL_CONT
    DECIMALS_2, // VL_BC_ICMS
    DECIMALS_2, // VL_ICMS
    // 8535
    CODE, N_ANY, // NUM_ITEM
    C255, // COD_ITEM
    N4, // CFOP
    DECIMALS_2, // VL_BC_ICMS_I
    DECIMALS_2, // ALIQ_ICMS
    DECIMALS_2, // VL_ICMS_I
    N_ANY, // IND_AP
    N_ANY, // IND_ESP
    // 8540
    CODE, DECIMALS_2, // VL_CONT_P
    N4, // CFOP
    DECIMALS_2, // VL_BC_ICMS_P
    DECIMALS_2, // ALIQ_ICMS
    DECIMALS_2, // VL_ICMS_P
    N_ANY, // IND_AP
    N_ANY, // IND_ESP
    // 8545
    CODE, C5, // COD_BF_ICMS
    N_ANY, // IND_AP
    N_ANY, // IND_ESP
    // 8550
    CODE, DECIMALS_2, // VL_CONT
    N4, // CFOP
    DECIMALS_2, // VL_ICMS
    // 8555
    CODE, N2, // IND_INC
    DECIMALS_2, // VL_CONT
    DECIMALS_2, // VL_ICMS
    // 8560
    CODE, DECIMALS_2, // VL_01
    DECIMALS_2, // VL_05
    DECIMALS_2, // VL_06
    DECIMALS_2, // VL_07
    DECIMALS_2, // VL_08
    DECIMALS_2, // VL_09
    DECIMALS_2, // VL_10
    DECIMALS_2, // VL_11
    DECIMALS_2, // VL_12
    DECIMALS_2, // VL_13
    DECIMALS_2, // VL_14
    // 8565
    CODE, N3, // COD_AJ
    DECIMALS_2, // VL_AJ
    // 8570
    CODE, DECIMALS_2, // G1_01
    DECIMALS_2, // G1_02
    DECIMALS_2, // G1_03
    DECIMALS_2, // G1_04
    DECIMALS_2, // G1_05
    DECIMALS_2, // G1_06
    DECIMALS_2, // G1_07
    DECIMALS_2, // G1_08
    DECIMALS_2, // G1_09
    DECIMALS_2, // G1_10
    DECIMALS_2, // G1_11
    // 8580
    CODE, DECIMALS_2, // G3_01
    DECIMALS_2, // G3_02
    DECIMALS_2, // G3_03
    DECIMALS_2, // G3_04
    DECIMALS_2, // G3_05
    DECIMALS_2, // G3_06
    DECIMALS_2, // G3_07
    DECIMALS_2, // G3_08
    DECIMALS_2, // G3_09
    // 8585
    CODE, N1, // IND_FX
    DECIMALS_2, // G3_10
    DECIMALS_2, // G3_11
    DECIMALS_2, // G3_12
    // 8590
    CODE, DECIMALS_2, // G4_01
    DECIMALS_2, // G4_02
    DECIMALS_2, // G4_03
    DECIMALS_2, // G4_04
    DECIMALS_2, // G4_05
    DECIMALS_2, // G4_06
    DECIMALS_2, // G4_07
    DECIMALS_2, // G4_08
    DECIMALS_2, // G4_09
    DECIMALS_2, // G4_10
    DECIMALS_2, // G4_11
    DECIMALS_2, // G4_12
    DECIMALS_2, // G4_13
    DECIMALS_2, // G4_14
    // 8990
    CODE, COUNT, // QTD_LIN_8
    // 9001
    CODE, OPENS, // IND_DAD
    // 9020
    CODE, C4, // LEIAUTE
    N8, // ARQ_DT_INI
    N8, // ARQ_DT_FIN
    C255, // ARQ_NOME_EMPR
    N14, // ARQ_CNPJ
    C2, // ARQ_UF
    C14, // ARQ_IE
    N7, // ARQ_COD_MUN
    C255, // ARQ_IM
    C0, // VAZIO
    C9, // ARQ_SUFRAMA
    N4, // ARQ_COD_VER
    N1, // ARQ_COD_FIN
    N2, // ARQ_COD_CTD
    C6, // ARQ_PAIS
    N11, // ARQ_CPF
    C255, // ARQ_FANTASIA
    N_ANY, // ARQ_QTD_LIN
    C255, // ARQ_NOME
    C128, // ASS_HASH
    // 9030
    CODE, C4, // ARQ_LIN_BLC
    N_ANY, // ARQ_QTD_LIN_BLC
    // 9040
    CODE, C255, // ARQ_CERT_AC
    C255, // ARQ_CERT_SER
    N8, // ARQ_CERT_EXP_DT
    N8, // ARQ_CERT_EXP_HR
    C255, // ARQ_ALG
    N8, // ARQ_DT
    N8, // ARQ_HR
    C255, // ARQ_SIGN
    N3, // COD_ASSIN
    C65536, // ARQ_CERT
    C65536, // ARQ_ASS
    // 9900
    CODE, LINE_CODE, // LIN_BLC
    N_ANY, // QTD_LIN_BLC
    // 9990
    CODE, COUNT, // QTD_LIN_9
    // 9999
    CODE, COUNT, // QTD_LIN
];
