//! Linkage of symbols.

/// How a symbol is linked (Language Reference, Linkage Types).
#[derive(Clone, Copy, PartialEq, Eq, Debug, Drop)]
pub enum LinkageAttr {
    ExternalLinkage,
    AvailableExternallyLinkage,
    LinkOnceAnyLinkage,
    LinkOnceODRLinkage,
    WeakAnyLinkage,
    WeakODRLinkage,
    AppendingLinkage,
    InternalLinkage,
    PrivateLinkage,
    ExternalWeakLinkage,
    CommonLinkage,
    LinkOnceODRAutoHideLinkage,
    DLLImportLinkage,
    DLLExportLinkage,
    LinkerPrivateLinkage,
    LinkerPrivateWeakLinkage,
    GhostLinkage,
}
