//! What a talk can rely on. The functions do nothing; their contracts are the laws.
ghost use Rattle.jh_cellcfg.specs.declared.config.CellConfig.{CellConfig as TheConfig};
ghost use Rattle.jh_cellcfg.specs.declared.config.SystemConfig.{SystemConfig as TheSystem};
ghost use Rattle.jh_talk.specs.declared.talk.Talk.{Talk as TheTalk};
ghost use Rattle.jh_talk.specs.Apart.{IsClearOfMemory, SectionsStayRoots};
ghost use Rattle.jh_talk.specs.Images.{follower_side, leader_side, IsTalk};

/// The cell takes no place of the pair's sections from root, be it loadable or not: root reads and writes them while the
/// cell lives.
pub fn sections_stay_roots()
    ensures { (system : TheSystem) (cell : TheConfig) (talk : TheTalk) → IsTalk system cell talk →
        SectionsStayRoots system.root cell talk.pair.device }
{}

/// Where the devices of the pair answer, at their function and at their windows, no access reaches memory.
pub fn devices_answer_in_no_memory()
    ensures leader { (system : TheSystem) (cell : TheConfig) (talk : TheTalk) → IsTalk system cell talk →
        IsClearOfMemory system.root.memory_regions (leader_side system talk) }
    ensures follower { (system : TheSystem) (cell : TheConfig) (talk : TheTalk) → IsTalk system cell talk →
        IsClearOfMemory cell.memory_regions (follower_side system cell talk) }
{}
