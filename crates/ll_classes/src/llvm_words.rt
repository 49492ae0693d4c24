//! The words of LLVM text with their classes, which `grammar/tables.py merged words` makes of `grammar/ll.grammar`.

ghost use Rattle.std.specs.Prelude.{◌≡◌};
ghost use Rattle.ll_classes.specs.Classes.{names, words};
ghost use Rattle.ll_classes.specs.Llvm.{llvm_names, llvm_rows};

use crate::words::{Bucket, Word, Words};

/// The texts of all words, one behind another.
pub static TEXTS: [u8; 2620] = *b"\
catchpadmonotonicarcpnestalwaysinlinedatalayoutnandsanitize_realtime\
sanitize_threadacquireninfdoublelinkoncenszallocptrdereferenceable_or_null\
noundefaliassretdisable_sanitizer_instrumentationdllimportexactselectnooutline\
swifterrornonnullcatchretsanitize_addressshufflevectoratomicrmwswiftccmin\
nonlazybindbitcastpoisonconstantnorecursemulfmaxbfloat\
phisource_filenameinallocacoro_elide_safenocf_checkxorelementtypenoprofile\
skipprofiledefinesltvscale_rangecoldccmemorymustprogressnobuiltin\
splatextern_weakfencenofpclasssspreqswiftasyncx86_stdcallccspeculatable\
internalsextbyvalcapturessanitize_alloc_tokenblockaddressgetelementptrzeroinitializer\
shadowcallstackflattensgtdisjointprologuepresplitcoroutinesspwillreturn\
ultsamesignnepartitionzeroexticmpuwtablenneg\
nomergefmaximumfminimumnakednocreateundeforpoisontargetppc_fp128vscale\
swifttailccfloatva_argsspstrongugtloadnosanitize_coveragenounwind\
privateoptdebugatomicsignextcoldbuiltinopaquesub\
writablestoresanitize_hwaddressweakasynccallnoinlinesanitize_realtime_blocking\
preserve_allccnoduplicatepreserve_mostcchotifuncreadonlycallbrsdiv\
nocallbacktailandxlocal_unnamed_addrminsizenoaliasto\
extractelementdso_localmaxvolatileunreachablespeculative_load_hardeninginttoptrnnan\
notailreleaseorumininboundslshrvoidcatchswitch\
xchgallocsizedenormal_fpenvudivallocadllexportundefzext\
unorderedoptsizeprefixsremnswalignnuswmusttail\
sanitize_memtagseq_cstx86_fastcallccaddccccclinkonce_odrreturned\
halfthread_localunnamed_addrnodivergencesourceusub_condnoipaoptnonesle\
moduletokenindirectbrnoreturninlinehintsanitize_memoryinsertelementurem\
x86_fp80metadatax86_vectorcallccudec_wrapuinc_wrapcleanuppadtailccfast\
usub_satinregreassocextractvaluesgesideeffectnosanitize_boundsacq_rel\
fastcchybrid_patchablereturns_twiceulenoimplicitfloatptrinrangenoredzone\
immargcleanupretnuwcoro_only_destroy_when_completedistinctglobalsyncscopecomdat\
nocapturerangepersonalityweak_odrreadnonepreallocatedsafestackfp128\
gcexternally_initializedfsubghcccugesyncfmininitializes\
afnshlwriteonlyptrtoaddrptrtointavailable_externallyfaddx86_amx\
switchswiftselfdead_on_unwindumaxbyrefnoextnull_pointer_is_validresume\
sectiondereferenceabledso_preemptablesanitize_typeinsertvaluedead_on_returnfn_ret_thunk_externint\
brallocalignprotectedaddrspaceasmjumptablestrictfpnofree\
nullfreezeinvokecmpxchgaddrspacecastalignstackdeclareeq\
trunctruecontracthiddenoptforfuzzinglabelconvergentappending\
ashrlandingpaduselistorderx86_thiscallccattributescommonnosyncuselistorder_bb\
typefalseallockindtripleexternalretsanitize_numerical_stability!DICompileUnit\
!DIFile!DILexicalBlock!DILexicalBlockFile!DILocation!DISubprogram!DISubroutineType";

/// The words that the grammar names and those that are refused everywhere, in the order of their buckets, and behind
/// them the names of metadata that have a class of their own.
pub static WORDS: [Word; 310] = [
    // catchpad: REFUSED
    Word {
        start: 0,
        end: 8,
        class: 13,
    },
    // monotonic: ORDERING
    Word {
        start: 8,
        end: 17,
        class: 40,
    },
    // arcp: REFUSED
    Word {
        start: 17,
        end: 21,
        class: 13,
    },
    // nest: REFUSED
    Word {
        start: 21,
        end: 25,
        class: 13,
    },
    // alwaysinline: ENUM_ATTR
    Word {
        start: 25,
        end: 37,
        class: 27,
    },
    // datalayout: TARGET
    Word {
        start: 37,
        end: 47,
        class: 15,
    },
    // nand: RMW_KIND
    Word {
        start: 47,
        end: 51,
        class: 39,
    },
    // sanitize_realtime: ENUM_ATTR
    Word {
        start: 51,
        end: 68,
        class: 27,
    },
    // sanitize_thread: ENUM_ATTR
    Word {
        start: 68,
        end: 83,
        class: 27,
    },
    // acquire: ORDERING
    Word {
        start: 83,
        end: 90,
        class: 40,
    },
    // ninf: REFUSED
    Word {
        start: 90,
        end: 94,
        class: 13,
    },
    // double: FLAT
    Word {
        start: 94,
        end: 100,
        class: 28,
    },
    // linkonce: BODY_LINKAGE
    Word {
        start: 100,
        end: 108,
        class: 16,
    },
    // nsz: REFUSED
    Word {
        start: 108,
        end: 111,
        class: 13,
    },
    // allocptr: ENUM_ATTR_LOST_ATTR
    Word {
        start: 111,
        end: 119,
        class: 21,
    },
    // dereferenceable_or_null: LOST_ATTR_NUMBER_ATTR
    Word {
        start: 119,
        end: 142,
        class: 22,
    },
    // noundef: ENUM_ATTR_LOST_ATTR
    Word {
        start: 142,
        end: 149,
        class: 21,
    },
    // alias: alias
    Word {
        start: 149,
        end: 154,
        class: 64,
    },
    // sret: REFUSED
    Word {
        start: 154,
        end: 158,
        class: 13,
    },
    // disable_sanitizer_instrumentation: ENUM_ATTR
    Word {
        start: 158,
        end: 191,
        class: 27,
    },
    // dllimport: REFUSED
    Word {
        start: 191,
        end: 200,
        class: 13,
    },
    // exact: exact
    Word {
        start: 200,
        end: 205,
        class: 83,
    },
    // select: SIMPLE
    Word {
        start: 205,
        end: 211,
        class: 32,
    },
    // nooutline: ENUM_ATTR
    Word {
        start: 211,
        end: 220,
        class: 27,
    },
    // swifterror: REFUSED
    Word {
        start: 220,
        end: 230,
        class: 13,
    },
    // nonnull: ENUM_ATTR_LOST_ATTR
    Word {
        start: 230,
        end: 237,
        class: 21,
    },
    // catchret: REFUSED
    Word {
        start: 237,
        end: 245,
        class: 13,
    },
    // sanitize_address: ENUM_ATTR
    Word {
        start: 245,
        end: 261,
        class: 27,
    },
    // shufflevector: shufflevector
    Word {
        start: 261,
        end: 274,
        class: 109,
    },
    // atomicrmw: atomicrmw
    Word {
        start: 274,
        end: 283,
        class: 70,
    },
    // swiftcc: REFUSED
    Word {
        start: 283,
        end: 290,
        class: 13,
    },
    // min: RMW_KIND
    Word {
        start: 290,
        end: 293,
        class: 39,
    },
    // nonlazybind: ENUM_ATTR
    Word {
        start: 293,
        end: 304,
        class: 27,
    },
    // bitcast: CAST_CONST_CAST
    Word {
        start: 304,
        end: 311,
        class: 30,
    },
    // poison: CONST
    Word {
        start: 311,
        end: 317,
        class: 29,
    },
    // constant: STORAGE
    Word {
        start: 317,
        end: 325,
        class: 20,
    },
    // norecurse: ENUM_ATTR
    Word {
        start: 325,
        end: 334,
        class: 27,
    },
    // mul: SUM
    Word {
        start: 334,
        end: 337,
        class: 33,
    },
    // fmax: RMW_KIND
    Word {
        start: 337,
        end: 341,
        class: 39,
    },
    // bfloat: FLAT
    Word {
        start: 341,
        end: 347,
        class: 28,
    },
    // phi: phi
    Word {
        start: 347,
        end: 350,
        class: 105,
    },
    // source_filename: source_filename
    Word {
        start: 350,
        end: 365,
        class: 111,
    },
    // inalloca: REFUSED
    Word {
        start: 365,
        end: 373,
        class: 13,
    },
    // coro_elide_safe: ENUM_ATTR
    Word {
        start: 373,
        end: 388,
        class: 27,
    },
    // nocf_check: ENUM_ATTR
    Word {
        start: 388,
        end: 398,
        class: 27,
    },
    // xor: BITS_RMW_KIND
    Word {
        start: 398,
        end: 401,
        class: 36,
    },
    // elementtype: elementtype
    Word {
        start: 401,
        end: 412,
        class: 82,
    },
    // noprofile: ENUM_ATTR
    Word {
        start: 412,
        end: 421,
        class: 27,
    },
    // skipprofile: ENUM_ATTR
    Word {
        start: 421,
        end: 432,
        class: 27,
    },
    // define: define
    Word {
        start: 432,
        end: 438,
        class: 78,
    },
    // slt: PREDICATE
    Word {
        start: 438,
        end: 441,
        class: 37,
    },
    // vscale_range: EITHER_ATTR
    Word {
        start: 441,
        end: 453,
        class: 26,
    },
    // coldcc: REFUSED
    Word {
        start: 453,
        end: 459,
        class: 13,
    },
    // memory: EITHER_ATTR
    Word {
        start: 459,
        end: 465,
        class: 26,
    },
    // mustprogress: ENUM_ATTR
    Word {
        start: 465,
        end: 477,
        class: 27,
    },
    // nobuiltin: ENUM_ATTR
    Word {
        start: 477,
        end: 486,
        class: 27,
    },
    // splat: splat
    Word {
        start: 486,
        end: 491,
        class: 112,
    },
    // extern_weak: extern_weak
    Word {
        start: 491,
        end: 502,
        class: 84,
    },
    // fence: fence
    Word {
        start: 502,
        end: 507,
        class: 88,
    },
    // nofpclass: EITHER_ATTR_LOST_ATTR
    Word {
        start: 507,
        end: 516,
        class: 23,
    },
    // sspreq: ENUM_ATTR
    Word {
        start: 516,
        end: 522,
        class: 27,
    },
    // swiftasync: REFUSED
    Word {
        start: 522,
        end: 532,
        class: 13,
    },
    // x86_stdcallcc: REFUSED
    Word {
        start: 532,
        end: 545,
        class: 13,
    },
    // speculatable: ENUM_ATTR
    Word {
        start: 545,
        end: 557,
        class: 27,
    },
    // internal: BODY_LINKAGE
    Word {
        start: 557,
        end: 565,
        class: 16,
    },
    // sext: CAST
    Word {
        start: 565,
        end: 569,
        class: 38,
    },
    // byval: REFUSED
    Word {
        start: 569,
        end: 574,
        class: 13,
    },
    // captures: EITHER_ATTR_LOST_ATTR
    Word {
        start: 574,
        end: 582,
        class: 23,
    },
    // sanitize_alloc_token: ENUM_ATTR
    Word {
        start: 582,
        end: 602,
        class: 27,
    },
    // blockaddress: blockaddress
    Word {
        start: 602,
        end: 614,
        class: 72,
    },
    // getelementptr: getelementptr
    Word {
        start: 614,
        end: 627,
        class: 90,
    },
    // zeroinitializer: CONST
    Word {
        start: 627,
        end: 642,
        class: 29,
    },
    // shadowcallstack: ENUM_ATTR
    Word {
        start: 642,
        end: 657,
        class: 27,
    },
    // flatten: ENUM_ATTR
    Word {
        start: 657,
        end: 664,
        class: 27,
    },
    // sgt: PREDICATE
    Word {
        start: 664,
        end: 667,
        class: 37,
    },
    // disjoint: disjoint
    Word {
        start: 667,
        end: 675,
        class: 80,
    },
    // prologue: REFUSED
    Word {
        start: 675,
        end: 683,
        class: 13,
    },
    // presplitcoroutine: ENUM_ATTR
    Word {
        start: 683,
        end: 700,
        class: 27,
    },
    // ssp: ENUM_ATTR
    Word {
        start: 700,
        end: 703,
        class: 27,
    },
    // willreturn: ENUM_ATTR
    Word {
        start: 703,
        end: 713,
        class: 27,
    },
    // ult: PREDICATE
    Word {
        start: 713,
        end: 716,
        class: 37,
    },
    // samesign: samesign
    Word {
        start: 716,
        end: 724,
        class: 108,
    },
    // ne: PREDICATE
    Word {
        start: 724,
        end: 726,
        class: 37,
    },
    // partition: REFUSED
    Word {
        start: 726,
        end: 735,
        class: 13,
    },
    // zeroext: REFUSED
    Word {
        start: 735,
        end: 742,
        class: 13,
    },
    // icmp: icmp
    Word {
        start: 742,
        end: 746,
        class: 91,
    },
    // uwtable: uwtable
    Word {
        start: 746,
        end: 753,
        class: 121,
    },
    // nneg: nneg
    Word {
        start: 753,
        end: 757,
        class: 98,
    },
    // nomerge: ENUM_ATTR
    Word {
        start: 757,
        end: 764,
        class: 27,
    },
    // fmaximum: RMW_KIND
    Word {
        start: 764,
        end: 772,
        class: 39,
    },
    // fminimum: RMW_KIND
    Word {
        start: 772,
        end: 780,
        class: 39,
    },
    // naked: ENUM_ATTR
    Word {
        start: 780,
        end: 785,
        class: 27,
    },
    // nocreateundeforpoison: ENUM_ATTR
    Word {
        start: 785,
        end: 806,
        class: 27,
    },
    // target: target
    Word {
        start: 806,
        end: 812,
        class: 116,
    },
    // ppc_fp128: FLAT
    Word {
        start: 812,
        end: 821,
        class: 28,
    },
    // vscale: vscale
    Word {
        start: 821,
        end: 827,
        class: 125,
    },
    // swifttailcc: REFUSED
    Word {
        start: 827,
        end: 838,
        class: 13,
    },
    // float: FLAT
    Word {
        start: 838,
        end: 843,
        class: 28,
    },
    // va_arg: va_arg
    Word {
        start: 843,
        end: 849,
        class: 122,
    },
    // sspstrong: ENUM_ATTR
    Word {
        start: 849,
        end: 858,
        class: 27,
    },
    // ugt: PREDICATE
    Word {
        start: 858,
        end: 861,
        class: 37,
    },
    // load: load
    Word {
        start: 861,
        end: 865,
        class: 97,
    },
    // nosanitize_coverage: ENUM_ATTR
    Word {
        start: 865,
        end: 884,
        class: 27,
    },
    // nounwind: ENUM_ATTR
    Word {
        start: 884,
        end: 892,
        class: 27,
    },
    // private: BODY_LINKAGE
    Word {
        start: 892,
        end: 899,
        class: 16,
    },
    // optdebug: ENUM_ATTR
    Word {
        start: 899,
        end: 907,
        class: 27,
    },
    // atomic: atomic
    Word {
        start: 907,
        end: 913,
        class: 69,
    },
    // signext: REFUSED
    Word {
        start: 913,
        end: 920,
        class: 13,
    },
    // cold: ENUM_ATTR
    Word {
        start: 920,
        end: 924,
        class: 27,
    },
    // builtin: ENUM_ATTR
    Word {
        start: 924,
        end: 931,
        class: 27,
    },
    // opaque: opaque
    Word {
        start: 931,
        end: 937,
        class: 103,
    },
    // sub: CONST_SUM_RMW_KIND_SUM
    Word {
        start: 937,
        end: 940,
        class: 31,
    },
    // writable: ENUM_ATTR_LOST_ATTR
    Word {
        start: 940,
        end: 948,
        class: 21,
    },
    // store: store
    Word {
        start: 948,
        end: 953,
        class: 113,
    },
    // sanitize_hwaddress: ENUM_ATTR
    Word {
        start: 953,
        end: 971,
        class: 27,
    },
    // weak: weak
    Word {
        start: 971,
        end: 975,
        class: 126,
    },
    // async: UNWIND_NUMBER
    Word {
        start: 975,
        end: 980,
        class: 25,
    },
    // call: call
    Word {
        start: 980,
        end: 984,
        class: 74,
    },
    // noinline: ENUM_ATTR
    Word {
        start: 984,
        end: 992,
        class: 27,
    },
    // sanitize_realtime_blocking: ENUM_ATTR
    Word {
        start: 992,
        end: 1018,
        class: 27,
    },
    // preserve_allcc: REFUSED
    Word {
        start: 1018,
        end: 1032,
        class: 13,
    },
    // noduplicate: ENUM_ATTR
    Word {
        start: 1032,
        end: 1043,
        class: 27,
    },
    // preserve_mostcc: REFUSED
    Word {
        start: 1043,
        end: 1058,
        class: 13,
    },
    // hot: ENUM_ATTR
    Word {
        start: 1058,
        end: 1061,
        class: 27,
    },
    // ifunc: REFUSED
    Word {
        start: 1061,
        end: 1066,
        class: 13,
    },
    // readonly: ENUM_ATTR_LOST_ATTR
    Word {
        start: 1066,
        end: 1074,
        class: 21,
    },
    // callbr: REFUSED
    Word {
        start: 1074,
        end: 1080,
        class: 13,
    },
    // sdiv: QUOTIENT
    Word {
        start: 1080,
        end: 1084,
        class: 34,
    },
    // nocallback: ENUM_ATTR
    Word {
        start: 1084,
        end: 1094,
        class: 27,
    },
    // tail: TAIL
    Word {
        start: 1094,
        end: 1098,
        class: 42,
    },
    // and: BITS_RMW_KIND
    Word {
        start: 1098,
        end: 1101,
        class: 36,
    },
    // x: x
    Word {
        start: 1101,
        end: 1102,
        class: 127,
    },
    // local_unnamed_addr: UNNAMED
    Word {
        start: 1102,
        end: 1120,
        class: 19,
    },
    // minsize: ENUM_ATTR
    Word {
        start: 1120,
        end: 1127,
        class: 27,
    },
    // noalias: ENUM_ATTR_LOST_ATTR
    Word {
        start: 1127,
        end: 1134,
        class: 21,
    },
    // to: to
    Word {
        start: 1134,
        end: 1136,
        class: 117,
    },
    // extractelement: extractelement
    Word {
        start: 1136,
        end: 1150,
        class: 86,
    },
    // dso_local: DSO
    Word {
        start: 1150,
        end: 1159,
        class: 18,
    },
    // max: RMW_KIND
    Word {
        start: 1159,
        end: 1162,
        class: 39,
    },
    // volatile: volatile
    Word {
        start: 1162,
        end: 1170,
        class: 124,
    },
    // unreachable: unreachable
    Word {
        start: 1170,
        end: 1181,
        class: 120,
    },
    // speculative_load_hardening: ENUM_ATTR
    Word {
        start: 1181,
        end: 1207,
        class: 27,
    },
    // inttoptr: CAST_CONST_CAST
    Word {
        start: 1207,
        end: 1215,
        class: 30,
    },
    // nnan: REFUSED
    Word {
        start: 1215,
        end: 1219,
        class: 13,
    },
    // notail: TAIL
    Word {
        start: 1219,
        end: 1225,
        class: 42,
    },
    // release: ORDERING
    Word {
        start: 1225,
        end: 1232,
        class: 40,
    },
    // or: or
    Word {
        start: 1232,
        end: 1234,
        class: 104,
    },
    // umin: RMW_KIND
    Word {
        start: 1234,
        end: 1238,
        class: 39,
    },
    // inbounds: GEP_FLAG
    Word {
        start: 1238,
        end: 1246,
        class: 41,
    },
    // lshr: QUOTIENT
    Word {
        start: 1246,
        end: 1250,
        class: 34,
    },
    // void: void
    Word {
        start: 1250,
        end: 1254,
        class: 123,
    },
    // catchswitch: REFUSED
    Word {
        start: 1254,
        end: 1265,
        class: 13,
    },
    // xchg: RMW_KIND
    Word {
        start: 1265,
        end: 1269,
        class: 39,
    },
    // allocsize: EITHER_ATTR
    Word {
        start: 1269,
        end: 1278,
        class: 26,
    },
    // denormal_fpenv: denormal_fpenv
    Word {
        start: 1278,
        end: 1292,
        class: 79,
    },
    // udiv: QUOTIENT
    Word {
        start: 1292,
        end: 1296,
        class: 34,
    },
    // alloca: alloca
    Word {
        start: 1296,
        end: 1302,
        class: 67,
    },
    // dllexport: REFUSED
    Word {
        start: 1302,
        end: 1311,
        class: 13,
    },
    // undef: CONST
    Word {
        start: 1311,
        end: 1316,
        class: 29,
    },
    // zext: zext
    Word {
        start: 1316,
        end: 1320,
        class: 128,
    },
    // unordered: ORDERING
    Word {
        start: 1320,
        end: 1329,
        class: 40,
    },
    // optsize: ENUM_ATTR
    Word {
        start: 1329,
        end: 1336,
        class: 27,
    },
    // prefix: REFUSED
    Word {
        start: 1336,
        end: 1342,
        class: 13,
    },
    // srem: BITS
    Word {
        start: 1342,
        end: 1346,
        class: 35,
    },
    // nsw: nsw
    Word {
        start: 1346,
        end: 1349,
        class: 100,
    },
    // align: align
    Word {
        start: 1349,
        end: 1354,
        class: 65,
    },
    // nusw: GEP_FLAG
    Word {
        start: 1354,
        end: 1358,
        class: 41,
    },
    // musttail: REFUSED
    Word {
        start: 1358,
        end: 1366,
        class: 13,
    },
    // sanitize_memtag: ENUM_ATTR
    Word {
        start: 1366,
        end: 1381,
        class: 27,
    },
    // seq_cst: ORDERING
    Word {
        start: 1381,
        end: 1388,
        class: 40,
    },
    // x86_fastcallcc: REFUSED
    Word {
        start: 1388,
        end: 1402,
        class: 13,
    },
    // add: CONST_SUM_RMW_KIND_SUM
    Word {
        start: 1402,
        end: 1405,
        class: 31,
    },
    // cc: REFUSED
    Word {
        start: 1405,
        end: 1407,
        class: 13,
    },
    // ccc: REFUSED
    Word {
        start: 1407,
        end: 1410,
        class: 13,
    },
    // linkonce_odr: BODY_LINKAGE
    Word {
        start: 1410,
        end: 1422,
        class: 16,
    },
    // returned: ENUM_ATTR_LOST_ATTR
    Word {
        start: 1422,
        end: 1430,
        class: 21,
    },
    // half: FLAT
    Word {
        start: 1430,
        end: 1434,
        class: 28,
    },
    // thread_local: REFUSED
    Word {
        start: 1434,
        end: 1446,
        class: 13,
    },
    // unnamed_addr: UNNAMED
    Word {
        start: 1446,
        end: 1458,
        class: 19,
    },
    // nodivergencesource: ENUM_ATTR
    Word {
        start: 1458,
        end: 1476,
        class: 27,
    },
    // usub_cond: RMW_KIND
    Word {
        start: 1476,
        end: 1485,
        class: 39,
    },
    // noipa: ENUM_ATTR
    Word {
        start: 1485,
        end: 1490,
        class: 27,
    },
    // optnone: ENUM_ATTR
    Word {
        start: 1490,
        end: 1497,
        class: 27,
    },
    // sle: PREDICATE
    Word {
        start: 1497,
        end: 1500,
        class: 37,
    },
    // module: REFUSED
    Word {
        start: 1500,
        end: 1506,
        class: 13,
    },
    // token: FLAT
    Word {
        start: 1506,
        end: 1511,
        class: 28,
    },
    // indirectbr: indirectbr
    Word {
        start: 1511,
        end: 1521,
        class: 92,
    },
    // noreturn: ENUM_ATTR
    Word {
        start: 1521,
        end: 1529,
        class: 27,
    },
    // inlinehint: ENUM_ATTR
    Word {
        start: 1529,
        end: 1539,
        class: 27,
    },
    // sanitize_memory: ENUM_ATTR
    Word {
        start: 1539,
        end: 1554,
        class: 27,
    },
    // insertelement: SIMPLE
    Word {
        start: 1554,
        end: 1567,
        class: 32,
    },
    // urem: BITS
    Word {
        start: 1567,
        end: 1571,
        class: 35,
    },
    // x86_fp80: FLAT
    Word {
        start: 1571,
        end: 1579,
        class: 28,
    },
    // metadata: REFUSED
    Word {
        start: 1579,
        end: 1587,
        class: 13,
    },
    // x86_vectorcallcc: REFUSED
    Word {
        start: 1587,
        end: 1603,
        class: 13,
    },
    // udec_wrap: RMW_KIND
    Word {
        start: 1603,
        end: 1612,
        class: 39,
    },
    // uinc_wrap: RMW_KIND
    Word {
        start: 1612,
        end: 1621,
        class: 39,
    },
    // cleanuppad: REFUSED
    Word {
        start: 1621,
        end: 1631,
        class: 13,
    },
    // tailcc: REFUSED
    Word {
        start: 1631,
        end: 1637,
        class: 13,
    },
    // fast: REFUSED
    Word {
        start: 1637,
        end: 1641,
        class: 13,
    },
    // usub_sat: RMW_KIND
    Word {
        start: 1641,
        end: 1649,
        class: 39,
    },
    // inreg: REFUSED
    Word {
        start: 1649,
        end: 1654,
        class: 13,
    },
    // reassoc: REFUSED
    Word {
        start: 1654,
        end: 1661,
        class: 13,
    },
    // extractvalue: extractvalue
    Word {
        start: 1661,
        end: 1673,
        class: 87,
    },
    // sge: PREDICATE
    Word {
        start: 1673,
        end: 1676,
        class: 37,
    },
    // sideeffect: sideeffect
    Word {
        start: 1676,
        end: 1686,
        class: 110,
    },
    // nosanitize_bounds: ENUM_ATTR
    Word {
        start: 1686,
        end: 1703,
        class: 27,
    },
    // acq_rel: ORDERING
    Word {
        start: 1703,
        end: 1710,
        class: 40,
    },
    // fastcc: REFUSED
    Word {
        start: 1710,
        end: 1716,
        class: 13,
    },
    // hybrid_patchable: ENUM_ATTR
    Word {
        start: 1716,
        end: 1732,
        class: 27,
    },
    // returns_twice: ENUM_ATTR
    Word {
        start: 1732,
        end: 1745,
        class: 27,
    },
    // ule: PREDICATE
    Word {
        start: 1745,
        end: 1748,
        class: 37,
    },
    // noimplicitfloat: ENUM_ATTR
    Word {
        start: 1748,
        end: 1763,
        class: 27,
    },
    // ptr: ptr
    Word {
        start: 1763,
        end: 1766,
        class: 106,
    },
    // inrange: inrange
    Word {
        start: 1766,
        end: 1773,
        class: 93,
    },
    // noredzone: ENUM_ATTR
    Word {
        start: 1773,
        end: 1782,
        class: 27,
    },
    // immarg: ENUM_ATTR_LOST_ATTR
    Word {
        start: 1782,
        end: 1788,
        class: 21,
    },
    // cleanupret: REFUSED
    Word {
        start: 1788,
        end: 1798,
        class: 13,
    },
    // nuw: nuw
    Word {
        start: 1798,
        end: 1801,
        class: 102,
    },
    // coro_only_destroy_when_complete: ENUM_ATTR
    Word {
        start: 1801,
        end: 1832,
        class: 27,
    },
    // distinct: distinct
    Word {
        start: 1832,
        end: 1840,
        class: 81,
    },
    // global: STORAGE
    Word {
        start: 1840,
        end: 1846,
        class: 20,
    },
    // syncscope: syncscope
    Word {
        start: 1846,
        end: 1855,
        class: 115,
    },
    // comdat: REFUSED
    Word {
        start: 1855,
        end: 1861,
        class: 13,
    },
    // nocapture: nocapture
    Word {
        start: 1861,
        end: 1870,
        class: 99,
    },
    // range: LOST_ATTR_RANGE_ATTR
    Word {
        start: 1870,
        end: 1875,
        class: 24,
    },
    // personality: REFUSED
    Word {
        start: 1875,
        end: 1886,
        class: 13,
    },
    // weak_odr: BODY_LINKAGE
    Word {
        start: 1886,
        end: 1894,
        class: 16,
    },
    // readnone: ENUM_ATTR_LOST_ATTR
    Word {
        start: 1894,
        end: 1902,
        class: 21,
    },
    // preallocated: REFUSED
    Word {
        start: 1902,
        end: 1914,
        class: 13,
    },
    // safestack: ENUM_ATTR
    Word {
        start: 1914,
        end: 1923,
        class: 27,
    },
    // fp128: FLAT
    Word {
        start: 1923,
        end: 1928,
        class: 28,
    },
    // gc: REFUSED
    Word {
        start: 1928,
        end: 1930,
        class: 13,
    },
    // externally_initialized: REFUSED
    Word {
        start: 1930,
        end: 1952,
        class: 13,
    },
    // fsub: RMW_KIND
    Word {
        start: 1952,
        end: 1956,
        class: 39,
    },
    // ghccc: REFUSED
    Word {
        start: 1956,
        end: 1961,
        class: 13,
    },
    // uge: PREDICATE
    Word {
        start: 1961,
        end: 1964,
        class: 37,
    },
    // sync: UNWIND_NUMBER
    Word {
        start: 1964,
        end: 1968,
        class: 25,
    },
    // fmin: RMW_KIND
    Word {
        start: 1968,
        end: 1972,
        class: 39,
    },
    // initializes: LOST_ATTR_RANGE_ATTR
    Word {
        start: 1972,
        end: 1983,
        class: 24,
    },
    // afn: REFUSED
    Word {
        start: 1983,
        end: 1986,
        class: 13,
    },
    // shl: SUM
    Word {
        start: 1986,
        end: 1989,
        class: 33,
    },
    // writeonly: ENUM_ATTR_LOST_ATTR
    Word {
        start: 1989,
        end: 1998,
        class: 21,
    },
    // ptrtoaddr: REFUSED
    Word {
        start: 1998,
        end: 2007,
        class: 13,
    },
    // ptrtoint: CAST_CONST_CAST
    Word {
        start: 2007,
        end: 2015,
        class: 30,
    },
    // available_externally: BODY_LINKAGE
    Word {
        start: 2015,
        end: 2035,
        class: 16,
    },
    // fadd: RMW_KIND
    Word {
        start: 2035,
        end: 2039,
        class: 39,
    },
    // x86_amx: FLAT
    Word {
        start: 2039,
        end: 2046,
        class: 28,
    },
    // switch: switch
    Word {
        start: 2046,
        end: 2052,
        class: 114,
    },
    // swiftself: REFUSED
    Word {
        start: 2052,
        end: 2061,
        class: 13,
    },
    // dead_on_unwind: ENUM_ATTR_LOST_ATTR
    Word {
        start: 2061,
        end: 2075,
        class: 21,
    },
    // umax: RMW_KIND
    Word {
        start: 2075,
        end: 2079,
        class: 39,
    },
    // byref: REFUSED
    Word {
        start: 2079,
        end: 2084,
        class: 13,
    },
    // noext: ENUM_ATTR_LOST_ATTR
    Word {
        start: 2084,
        end: 2089,
        class: 21,
    },
    // null_pointer_is_valid: ENUM_ATTR
    Word {
        start: 2089,
        end: 2110,
        class: 27,
    },
    // resume: REFUSED
    Word {
        start: 2110,
        end: 2116,
        class: 13,
    },
    // section: REFUSED
    Word {
        start: 2116,
        end: 2123,
        class: 13,
    },
    // dereferenceable: LOST_ATTR_NUMBER_ATTR
    Word {
        start: 2123,
        end: 2138,
        class: 22,
    },
    // dso_preemptable: DSO
    Word {
        start: 2138,
        end: 2153,
        class: 18,
    },
    // sanitize_type: ENUM_ATTR
    Word {
        start: 2153,
        end: 2166,
        class: 27,
    },
    // insertvalue: insertvalue
    Word {
        start: 2166,
        end: 2177,
        class: 94,
    },
    // dead_on_return: dead_on_return
    Word {
        start: 2177,
        end: 2191,
        class: 76,
    },
    // fn_ret_thunk_extern: ENUM_ATTR
    Word {
        start: 2191,
        end: 2210,
        class: 27,
    },
    // int: int
    Word {
        start: 2210,
        end: 2213,
        class: 95,
    },
    // br: br
    Word {
        start: 2213,
        end: 2215,
        class: 73,
    },
    // allocalign: ENUM_ATTR_LOST_ATTR
    Word {
        start: 2215,
        end: 2225,
        class: 21,
    },
    // protected: REFUSED
    Word {
        start: 2225,
        end: 2234,
        class: 13,
    },
    // addrspace: addrspace
    Word {
        start: 2234,
        end: 2243,
        class: 63,
    },
    // asm: asm
    Word {
        start: 2243,
        end: 2246,
        class: 68,
    },
    // jumptable: ENUM_ATTR
    Word {
        start: 2246,
        end: 2255,
        class: 27,
    },
    // strictfp: ENUM_ATTR
    Word {
        start: 2255,
        end: 2263,
        class: 27,
    },
    // nofree: ENUM_ATTR_LOST_ATTR
    Word {
        start: 2263,
        end: 2269,
        class: 21,
    },
    // null: null
    Word {
        start: 2269,
        end: 2273,
        class: 101,
    },
    // freeze: freeze
    Word {
        start: 2273,
        end: 2279,
        class: 89,
    },
    // invoke: REFUSED
    Word {
        start: 2279,
        end: 2285,
        class: 13,
    },
    // cmpxchg: cmpxchg
    Word {
        start: 2285,
        end: 2292,
        class: 75,
    },
    // addrspacecast: CAST
    Word {
        start: 2292,
        end: 2305,
        class: 38,
    },
    // alignstack: alignstack
    Word {
        start: 2305,
        end: 2315,
        class: 66,
    },
    // declare: declare
    Word {
        start: 2315,
        end: 2322,
        class: 77,
    },
    // eq: PREDICATE
    Word {
        start: 2322,
        end: 2324,
        class: 37,
    },
    // trunc: trunc
    Word {
        start: 2324,
        end: 2329,
        class: 118,
    },
    // true: CONST
    Word {
        start: 2329,
        end: 2333,
        class: 29,
    },
    // contract: REFUSED
    Word {
        start: 2333,
        end: 2341,
        class: 13,
    },
    // hidden: REFUSED
    Word {
        start: 2341,
        end: 2347,
        class: 13,
    },
    // optforfuzzing: ENUM_ATTR
    Word {
        start: 2347,
        end: 2360,
        class: 27,
    },
    // label: label
    Word {
        start: 2360,
        end: 2365,
        class: 96,
    },
    // convergent: ENUM_ATTR
    Word {
        start: 2365,
        end: 2375,
        class: 27,
    },
    // appending: DATA_LINKAGE
    Word {
        start: 2375,
        end: 2384,
        class: 17,
    },
    // ashr: QUOTIENT
    Word {
        start: 2384,
        end: 2388,
        class: 34,
    },
    // landingpad: REFUSED
    Word {
        start: 2388,
        end: 2398,
        class: 13,
    },
    // uselistorder: REFUSED
    Word {
        start: 2398,
        end: 2410,
        class: 13,
    },
    // x86_thiscallcc: REFUSED
    Word {
        start: 2410,
        end: 2424,
        class: 13,
    },
    // attributes: attributes
    Word {
        start: 2424,
        end: 2434,
        class: 71,
    },
    // common: DATA_LINKAGE
    Word {
        start: 2434,
        end: 2440,
        class: 17,
    },
    // nosync: ENUM_ATTR
    Word {
        start: 2440,
        end: 2446,
        class: 27,
    },
    // uselistorder_bb: REFUSED
    Word {
        start: 2446,
        end: 2461,
        class: 13,
    },
    // type: type
    Word {
        start: 2461,
        end: 2465,
        class: 119,
    },
    // false: CONST
    Word {
        start: 2465,
        end: 2470,
        class: 29,
    },
    // allockind: EITHER_ATTR
    Word {
        start: 2470,
        end: 2479,
        class: 26,
    },
    // triple: TARGET
    Word {
        start: 2479,
        end: 2485,
        class: 15,
    },
    // external: external
    Word {
        start: 2485,
        end: 2493,
        class: 85,
    },
    // ret: ret
    Word {
        start: 2493,
        end: 2496,
        class: 107,
    },
    // sanitize_numerical_stability: ENUM_ATTR
    Word {
        start: 2496,
        end: 2524,
        class: 27,
    },
    // !DICompileUnit: !DICompileUnit
    Word {
        start: 2524,
        end: 2538,
        class: 56,
    },
    // !DIFile: !DIFile
    Word {
        start: 2538,
        end: 2545,
        class: 57,
    },
    // !DILexicalBlock: !DILexicalBlock
    Word {
        start: 2545,
        end: 2560,
        class: 58,
    },
    // !DILexicalBlockFile: !DILexicalBlockFile
    Word {
        start: 2560,
        end: 2579,
        class: 59,
    },
    // !DILocation: !DILocation
    Word {
        start: 2579,
        end: 2590,
        class: 60,
    },
    // !DISubprogram: !DISubprogram
    Word {
        start: 2590,
        end: 2603,
        class: 61,
    },
    // !DISubroutineType: !DISubroutineType
    Word {
        start: 2603,
        end: 2620,
        class: 62,
    },
];

/// The words of each bucket.
pub static BUCKETS: [Bucket; 256] = [
    Bucket { start: 0, end: 2 },
    Bucket { start: 2, end: 2 },
    Bucket { start: 2, end: 4 },
    Bucket { start: 4, end: 5 },
    Bucket { start: 5, end: 8 },
    Bucket { start: 8, end: 9 },
    Bucket { start: 9, end: 11 },
    Bucket { start: 11, end: 14 },
    Bucket { start: 14, end: 15 },
    Bucket { start: 15, end: 17 },
    Bucket { start: 17, end: 19 },
    Bucket { start: 19, end: 22 },
    Bucket { start: 22, end: 23 },
    Bucket { start: 23, end: 23 },
    Bucket { start: 23, end: 25 },
    Bucket { start: 25, end: 26 },
    Bucket { start: 26, end: 27 },
    Bucket { start: 27, end: 29 },
    Bucket { start: 29, end: 31 },
    Bucket { start: 31, end: 33 },
    Bucket { start: 33, end: 33 },
    Bucket { start: 33, end: 34 },
    Bucket { start: 34, end: 35 },
    Bucket { start: 35, end: 35 },
    Bucket { start: 35, end: 37 },
    Bucket { start: 37, end: 38 },
    Bucket { start: 38, end: 39 },
    Bucket { start: 39, end: 39 },
    Bucket { start: 39, end: 42 },
    Bucket { start: 42, end: 43 },
    Bucket { start: 43, end: 44 },
    Bucket { start: 44, end: 46 },
    Bucket { start: 46, end: 49 },
    Bucket { start: 49, end: 50 },
    Bucket { start: 50, end: 50 },
    Bucket { start: 50, end: 52 },
    Bucket { start: 52, end: 52 },
    Bucket { start: 52, end: 57 },
    Bucket { start: 57, end: 60 },
    Bucket { start: 60, end: 62 },
    Bucket { start: 62, end: 63 },
    Bucket { start: 63, end: 63 },
    Bucket { start: 63, end: 63 },
    Bucket { start: 63, end: 64 },
    Bucket { start: 64, end: 66 },
    Bucket { start: 66, end: 68 },
    Bucket { start: 68, end: 69 },
    Bucket { start: 69, end: 70 },
    Bucket { start: 70, end: 70 },
    Bucket { start: 70, end: 72 },
    Bucket { start: 72, end: 72 },
    Bucket { start: 72, end: 72 },
    Bucket { start: 72, end: 73 },
    Bucket { start: 73, end: 75 },
    Bucket { start: 75, end: 76 },
    Bucket { start: 76, end: 77 },
    Bucket { start: 77, end: 78 },
    Bucket { start: 78, end: 79 },
    Bucket { start: 79, end: 80 },
    Bucket { start: 80, end: 81 },
    Bucket { start: 81, end: 82 },
    Bucket { start: 82, end: 85 },
    Bucket { start: 85, end: 87 },
    Bucket { start: 87, end: 87 },
    Bucket { start: 87, end: 87 },
    Bucket { start: 87, end: 88 },
    Bucket { start: 88, end: 89 },
    Bucket { start: 89, end: 93 },
    Bucket { start: 93, end: 94 },
    Bucket { start: 94, end: 95 },
    Bucket { start: 95, end: 95 },
    Bucket { start: 95, end: 95 },
    Bucket { start: 95, end: 95 },
    Bucket { start: 95, end: 96 },
    Bucket { start: 96, end: 97 },
    Bucket { start: 97, end: 99 },
    Bucket {
        start: 99,
        end: 100,
    },
    Bucket {
        start: 100,
        end: 101,
    },
    Bucket {
        start: 101,
        end: 104,
    },
    Bucket {
        start: 104,
        end: 104,
    },
    Bucket {
        start: 104,
        end: 105,
    },
    Bucket {
        start: 105,
        end: 106,
    },
    Bucket {
        start: 106,
        end: 106,
    },
    Bucket {
        start: 106,
        end: 108,
    },
    Bucket {
        start: 108,
        end: 109,
    },
    Bucket {
        start: 109,
        end: 111,
    },
    Bucket {
        start: 111,
        end: 111,
    },
    Bucket {
        start: 111,
        end: 113,
    },
    Bucket {
        start: 113,
        end: 114,
    },
    Bucket {
        start: 114,
        end: 116,
    },
    Bucket {
        start: 116,
        end: 117,
    },
    Bucket {
        start: 117,
        end: 117,
    },
    Bucket {
        start: 117,
        end: 118,
    },
    Bucket {
        start: 118,
        end: 120,
    },
    Bucket {
        start: 120,
        end: 120,
    },
    Bucket {
        start: 120,
        end: 121,
    },
    Bucket {
        start: 121,
        end: 123,
    },
    Bucket {
        start: 123,
        end: 124,
    },
    Bucket {
        start: 124,
        end: 125,
    },
    Bucket {
        start: 125,
        end: 126,
    },
    Bucket {
        start: 126,
        end: 128,
    },
    Bucket {
        start: 128,
        end: 129,
    },
    Bucket {
        start: 129,
        end: 130,
    },
    Bucket {
        start: 130,
        end: 131,
    },
    Bucket {
        start: 131,
        end: 131,
    },
    Bucket {
        start: 131,
        end: 132,
    },
    Bucket {
        start: 132,
        end: 135,
    },
    Bucket {
        start: 135,
        end: 136,
    },
    Bucket {
        start: 136,
        end: 137,
    },
    Bucket {
        start: 137,
        end: 140,
    },
    Bucket {
        start: 140,
        end: 141,
    },
    Bucket {
        start: 141,
        end: 142,
    },
    Bucket {
        start: 142,
        end: 145,
    },
    Bucket {
        start: 145,
        end: 145,
    },
    Bucket {
        start: 145,
        end: 146,
    },
    Bucket {
        start: 146,
        end: 146,
    },
    Bucket {
        start: 146,
        end: 148,
    },
    Bucket {
        start: 148,
        end: 149,
    },
    Bucket {
        start: 149,
        end: 151,
    },
    Bucket {
        start: 151,
        end: 151,
    },
    Bucket {
        start: 151,
        end: 151,
    },
    Bucket {
        start: 151,
        end: 152,
    },
    Bucket {
        start: 152,
        end: 152,
    },
    Bucket {
        start: 152,
        end: 153,
    },
    Bucket {
        start: 153,
        end: 156,
    },
    Bucket {
        start: 156,
        end: 158,
    },
    Bucket {
        start: 158,
        end: 158,
    },
    Bucket {
        start: 158,
        end: 159,
    },
    Bucket {
        start: 159,
        end: 160,
    },
    Bucket {
        start: 160,
        end: 161,
    },
    Bucket {
        start: 161,
        end: 163,
    },
    Bucket {
        start: 163,
        end: 164,
    },
    Bucket {
        start: 164,
        end: 165,
    },
    Bucket {
        start: 165,
        end: 167,
    },
    Bucket {
        start: 167,
        end: 167,
    },
    Bucket {
        start: 167,
        end: 167,
    },
    Bucket {
        start: 167,
        end: 169,
    },
    Bucket {
        start: 169,
        end: 171,
    },
    Bucket {
        start: 171,
        end: 171,
    },
    Bucket {
        start: 171,
        end: 173,
    },
    Bucket {
        start: 173,
        end: 174,
    },
    Bucket {
        start: 174,
        end: 174,
    },
    Bucket {
        start: 174,
        end: 174,
    },
    Bucket {
        start: 174,
        end: 174,
    },
    Bucket {
        start: 174,
        end: 176,
    },
    Bucket {
        start: 176,
        end: 176,
    },
    Bucket {
        start: 176,
        end: 179,
    },
    Bucket {
        start: 179,
        end: 181,
    },
    Bucket {
        start: 181,
        end: 184,
    },
    Bucket {
        start: 184,
        end: 186,
    },
    Bucket {
        start: 186,
        end: 188,
    },
    Bucket {
        start: 188,
        end: 188,
    },
    Bucket {
        start: 188,
        end: 189,
    },
    Bucket {
        start: 189,
        end: 189,
    },
    Bucket {
        start: 189,
        end: 190,
    },
    Bucket {
        start: 190,
        end: 192,
    },
    Bucket {
        start: 192,
        end: 193,
    },
    Bucket {
        start: 193,
        end: 195,
    },
    Bucket {
        start: 195,
        end: 195,
    },
    Bucket {
        start: 195,
        end: 197,
    },
    Bucket {
        start: 197,
        end: 198,
    },
    Bucket {
        start: 198,
        end: 199,
    },
    Bucket {
        start: 199,
        end: 201,
    },
    Bucket {
        start: 201,
        end: 201,
    },
    Bucket {
        start: 201,
        end: 203,
    },
    Bucket {
        start: 203,
        end: 204,
    },
    Bucket {
        start: 204,
        end: 206,
    },
    Bucket {
        start: 206,
        end: 206,
    },
    Bucket {
        start: 206,
        end: 207,
    },
    Bucket {
        start: 207,
        end: 209,
    },
    Bucket {
        start: 209,
        end: 209,
    },
    Bucket {
        start: 209,
        end: 210,
    },
    Bucket {
        start: 210,
        end: 212,
    },
    Bucket {
        start: 212,
        end: 214,
    },
    Bucket {
        start: 214,
        end: 216,
    },
    Bucket {
        start: 216,
        end: 217,
    },
    Bucket {
        start: 217,
        end: 219,
    },
    Bucket {
        start: 219,
        end: 219,
    },
    Bucket {
        start: 219,
        end: 222,
    },
    Bucket {
        start: 222,
        end: 222,
    },
    Bucket {
        start: 222,
        end: 223,
    },
    Bucket {
        start: 223,
        end: 223,
    },
    Bucket {
        start: 223,
        end: 226,
    },
    Bucket {
        start: 226,
        end: 226,
    },
    Bucket {
        start: 226,
        end: 228,
    },
    Bucket {
        start: 228,
        end: 229,
    },
    Bucket {
        start: 229,
        end: 231,
    },
    Bucket {
        start: 231,
        end: 233,
    },
    Bucket {
        start: 233,
        end: 235,
    },
    Bucket {
        start: 235,
        end: 235,
    },
    Bucket {
        start: 235,
        end: 237,
    },
    Bucket {
        start: 237,
        end: 238,
    },
    Bucket {
        start: 238,
        end: 240,
    },
    Bucket {
        start: 240,
        end: 241,
    },
    Bucket {
        start: 241,
        end: 241,
    },
    Bucket {
        start: 241,
        end: 242,
    },
    Bucket {
        start: 242,
        end: 243,
    },
    Bucket {
        start: 243,
        end: 244,
    },
    Bucket {
        start: 244,
        end: 245,
    },
    Bucket {
        start: 245,
        end: 246,
    },
    Bucket {
        start: 246,
        end: 247,
    },
    Bucket {
        start: 247,
        end: 248,
    },
    Bucket {
        start: 248,
        end: 249,
    },
    Bucket {
        start: 249,
        end: 250,
    },
    Bucket {
        start: 250,
        end: 251,
    },
    Bucket {
        start: 251,
        end: 251,
    },
    Bucket {
        start: 251,
        end: 252,
    },
    Bucket {
        start: 252,
        end: 255,
    },
    Bucket {
        start: 255,
        end: 255,
    },
    Bucket {
        start: 255,
        end: 257,
    },
    Bucket {
        start: 257,
        end: 260,
    },
    Bucket {
        start: 260,
        end: 260,
    },
    Bucket {
        start: 260,
        end: 261,
    },
    Bucket {
        start: 261,
        end: 261,
    },
    Bucket {
        start: 261,
        end: 262,
    },
    Bucket {
        start: 262,
        end: 264,
    },
    Bucket {
        start: 264,
        end: 265,
    },
    Bucket {
        start: 265,
        end: 265,
    },
    Bucket {
        start: 265,
        end: 266,
    },
    Bucket {
        start: 266,
        end: 267,
    },
    Bucket {
        start: 267,
        end: 268,
    },
    Bucket {
        start: 268,
        end: 268,
    },
    Bucket {
        start: 268,
        end: 271,
    },
    Bucket {
        start: 271,
        end: 272,
    },
    Bucket {
        start: 272,
        end: 273,
    },
    Bucket {
        start: 273,
        end: 275,
    },
    Bucket {
        start: 275,
        end: 276,
    },
    Bucket {
        start: 276,
        end: 278,
    },
    Bucket {
        start: 278,
        end: 279,
    },
    Bucket {
        start: 279,
        end: 280,
    },
    Bucket {
        start: 280,
        end: 281,
    },
    Bucket {
        start: 281,
        end: 282,
    },
    Bucket {
        start: 282,
        end: 282,
    },
    Bucket {
        start: 282,
        end: 282,
    },
    Bucket {
        start: 282,
        end: 282,
    },
    Bucket {
        start: 282,
        end: 282,
    },
    Bucket {
        start: 282,
        end: 285,
    },
    Bucket {
        start: 285,
        end: 286,
    },
    Bucket {
        start: 286,
        end: 287,
    },
    Bucket {
        start: 287,
        end: 287,
    },
    Bucket {
        start: 287,
        end: 288,
    },
    Bucket {
        start: 288,
        end: 288,
    },
    Bucket {
        start: 288,
        end: 291,
    },
    Bucket {
        start: 291,
        end: 292,
    },
    Bucket {
        start: 292,
        end: 292,
    },
    Bucket {
        start: 292,
        end: 293,
    },
    Bucket {
        start: 293,
        end: 294,
    },
    Bucket {
        start: 294,
        end: 296,
    },
    Bucket {
        start: 296,
        end: 296,
    },
    Bucket {
        start: 296,
        end: 297,
    },
    Bucket {
        start: 297,
        end: 298,
    },
    Bucket {
        start: 298,
        end: 300,
    },
    Bucket {
        start: 300,
        end: 301,
    },
    Bucket {
        start: 301,
        end: 302,
    },
    Bucket {
        start: 302,
        end: 302,
    },
    Bucket {
        start: 302,
        end: 303,
    },
];

/// The names of metadata.
pub const NAMES: Bucket = Bucket {
    start: 303,
    end: 310,
};

/// The words of LLVM text.
#[tactic(auto, unfolding(crate::specs::Buckets::bucket_of))]
pub fn llvm_words() -> Words<'static>
    ensures rows { words result ≡ llvm_rows }
    ensures names { names result ≡ llvm_names }
{
    Words {
        texts: &TEXTS,
        words: &WORDS,
        buckets: &BUCKETS,
        names: NAMES,
    }
}
