ghost use Rattle.std.specs.Prelude.{◌≡◌, true, false, [], ◌∷◌, ◌++◌, map, Ok, Err};
ghost use Rattle.std.specs.List.{AllByRecursion};
ghost use Rattle.cache_spec.specs.declared.start.Start.{Start};
ghost use Rattle.cache_spec.specs.Contents.{ends_in_hit};
ghost use Rattle.cache_spec.specs.Lru.{touch, is_in};
ghost use Rattle.elf_spec.specs.Image.{image_of};
ghost use Rattle.elf_spec.specs.Word.{word_at};
ghost use Rattle.riscv_spec.specs.declared.parcel.Isa.TheVariants.{Rv32i, Rv32ic};
ghost use Rattle.flow_spec.specs.declared.fault.FlowFault.TheVariants.{BadEntry, BadTarget, Illegal};
ghost use Rattle.flow_spec.specs.Configuration.{start_of, fetched};
ghost use Rattle.flow_spec.specs.Order.{configuration_cmp};
ghost use Rattle.flow_spec.specs.Successors.{successors};
ghost use Rattle.flow_spec.specs.Transfer.{is_good_target};
ghost use Rattle.one_answer.specs.Alike.{AreAlikeTexts};
ghost use Rattle.report_spec.specs.Report.{IsReport};
ghost use Rattle.report_spec.specs.Text.{line_text};
ghost use Rattle.transition_spec.specs.Layer.{all_of};
ghost use Rattle.transition_spec.specs.Named.{Names};
ghost use Rattle.transition_spec.specs.Path.{IsPath};
ghost use Rattle.worked_examples.specs.Alike.{hit_after, miss_after, hit_between, miss_between, hit_by_other_ways};
ghost use Rattle.worked_examples.specs.Caches.{geometry, worked_touches, worked_hits, worked_starts, IsRightRow};
ghost use Rattle.worked_examples.specs.Compressed.{long_between, call_over_stop, jump_onto_pair, worked_compressed_flows, worked_compressed_faults, worked_compressed_targets, parted_layers, whole_layers, call_layers};
ghost use Rattle.worked_examples.specs.Files.{two_words, two_words_image, worked_places, worked_refusals};
ghost use Rattle.worked_examples.specs.Flows.{worked_moves, worked_calls, worked_faults, worked_targets};
ghost use Rattle.worked_examples.specs.Orders.{worked_order};
ghost use Rattle.worked_examples.specs.Programs.{program_of, as_words, as_parcels, loop, loop_and_rest, nop_and_stop, branch_onto_pair};
ghost use Rattle.worked_examples.specs.Reports.{IsAcceptedIn, IsRefusedFrom, loop_layers, two_faults, loop_report, loop_context_report, stop_report, whole_report, parted_report, called_report};
ghost use Rattle.worked_examples.specs.Segments.{segments_of, worked_segments, worked_edges};
ghost use Rattle.worked_examples.specs.Texts.{worked_lines};
ghost use Rattle.worked_examples.specs.Ways.{once_around, once_around_way};

/// A file of two words has its image and its words; files that lack a part of it or change a byte are refused.
pub fn worked_file()
    ensures image { image_of two_words ≡ Ok two_words_image }
    ensures words { map (λ p. word_at two_words_image p.0) worked_places ≡ map (λ p. p.1) worked_places }
    ensures refused { map (λ f. image_of f.0) worked_refusals ≡ map (λ f. Err f.1) worked_refusals }
    ensures program { program_of (0x00000013 ∷ 0x00100073 ∷ []) ≡ two_words_image }
{}

/// Executable segments are kept in rising order of address, other program headers are passed over, and a word lies in
/// one segment.
pub fn worked_segments()
    ensures segments { map (λ f. segments_of (image_of f.0)) worked_segments ≡ map (λ f. f.1) worked_segments }
    ensures words { map (λ e. word_at e.0 e.1) worked_edges ≡ map (λ e. e.2) worked_edges }
{}

/// Plain words, branches, jumps, calls and returns lead where they should.
pub fn worked_flows()
    ensures moves { map (λ f. successors (as_words 32 f.0) f.1) worked_moves ≡ map (λ f. f.2) worked_moves }
    ensures calls { map (λ f. successors (as_words 32 f.0) f.1) worked_calls ≡ map (λ f. f.2) worked_calls }
    ensures targets { map (λ t. is_good_target Rv32i (program_of branch_onto_pair) t.0) worked_targets
        ≡ map (λ t. t.1) worked_targets }
{}

/// Words that lead nowhere good have their faults.
pub fn worked_faults()
    ensures { map (λ f. successors (as_words 32 f.0) f.1) worked_faults ≡ map (λ f. f.2) worked_faults }
{}

/// With compressed instructions words lead where they did. Instructions of two bytes lead on by two, one of four is
/// fetched in two parts where a line begins in its middle, and a pair may end in two bytes. The layers of a program
/// have all parts.
pub fn worked_compressed()
    ensures words { map (λ f. successors (as_parcels 32 f.0) f.1) (worked_moves ++ worked_calls)
        ≡ map (λ f. f.2) (worked_moves ++ worked_calls) }
    ensures flows { map (λ f. successors f.0 f.1) worked_compressed_flows ≡ map (λ f. f.2) worked_compressed_flows }
    ensures faults { map (λ f. successors f.0 f.1) worked_compressed_faults ≡ map (λ f. f.2) worked_compressed_faults }
    ensures targets { map (λ t. is_good_target Rv32ic (program_of jump_onto_pair) t.0) worked_compressed_targets
        ≡ map (λ t. t.1) worked_compressed_targets }
    ensures parted { IsAcceptedIn (as_parcels 4 long_between) parted_layers }
    ensures whole { IsAcceptedIn (as_parcels 16 long_between) whole_layers }
    ensures called { IsAcceptedIn (as_parcels 16 call_over_stop) call_layers }
    ensures fetches { map fetched (all_of parted_layers) ≡ 0x10000 ∷ 0x10002 ∷ 0x10004 ∷ 0x10006 ∷ [] }
{}

/// A set of two ways over five touches, fetches from an empty cache that end in a hit or in a miss, and how fetches can
/// end where the cache may start with anything.
pub fn worked_caches()
    ensures before { map (λ t. is_in t.0 t.1) worked_touches ≡ map (λ t. t.2) worked_touches }
    ensures after { map (λ t. touch 2 t.0 t.1) worked_touches ≡ map (λ t. t.3) worked_touches }
    ensures hits { map (λ h. ends_in_hit h.0 h.1) worked_hits ≡ map (λ h. h.2) worked_hits }
    ensures starts { AllByRecursion IsRightRow worked_starts }
{}

/// Each kind of line has its text.
pub fn worked_texts()
    ensures { map (λ l. line_text l.0) worked_lines ≡ map (λ l. l.1) worked_lines }
{}

/// Texts are alike where their unknown lines have other ways, and not where a verdict differs. That holds of a verdict
/// after an unknown line and between two: what stands after the first one can't be taken for its choices.
pub fn worked_alikeness()
    ensures other_ways { AreAlikeTexts hit_between hit_by_other_ways }
    ensures after_unknown { AreAlikeTexts hit_after miss_after → ⊥ }
    ensures between_unknown { AreAlikeTexts hit_between miss_between → ⊥ }
{}

/// Configurations are ordered by address, then by frames, of which a prefix comes first, then by part.
pub fn worked_order()
    ensures { map (λ o. configuration_cmp o.0 o.1) worked_order ≡ map (λ o. o.2) worked_order }
{}

/// Once around the loop is a path, and three steps with the one choice `t` name it.
pub fn worked_way()
    ensures path { IsPath (successors (as_words 32 loop)) (start_of 0x10000) once_around }
    ensures named { Names (successors (as_words 32 loop)) once_around_way once_around }
{}

/// The loop is accepted, and programs are refused by their entry, or by their first faulty word in order of address.
pub fn worked_acceptance()
    ensures accepted { IsAcceptedIn (as_words 16 loop_and_rest) loop_layers }
    ensures bad_entry { IsRefusedFrom 0x10008 branch_onto_pair (BadEntry 0x10008) }
    ensures bad_target { IsRefusedFrom 0x10000 (0x00000013 ∷ []) (BadTarget 0x10000 0x10004) }
    ensures first_fault { IsRefusedFrom 0x10000 two_faults (Illegal 0x10004 0xffffffff) }
{}

/// The two reports of a loop, in a cache of one line of 16 bytes that starts empty: its first word misses only on the
/// shortest path. And the report of a word and a stop where the cache may start with anything: its one path to the word
/// can hit and can miss.
pub fn worked_reports()
    ensures by_address { IsReport (as_words 16 loop_and_rest) (geometry 16 1 1) Start.Empty false loop_report }
    ensures by_context { IsReport (as_words 16 loop_and_rest) (geometry 16 1 1) Start.Empty true
        loop_context_report }
    ensures any_start { IsReport (as_words 16 nop_and_stop) (geometry 16 1 1) Start.Any false stop_report }
{}

/// Reports of programs with compressed instructions, in caches that start empty. The middle of an instruction that is
/// fetched at once has no line. Where a line of the cache begins there it is fetched, and has one; and so has an address
/// that nothing fetches after an instruction of two bytes.
pub fn worked_compressed_reports()
    ensures whole { IsReport (as_parcels 16 long_between) (geometry 16 1 1) Start.Empty false whole_report }
    ensures parted { IsReport (as_parcels 4 long_between) (geometry 4 1 4) Start.Empty false parted_report }
    ensures called { IsReport (as_parcels 16 call_over_stop) (geometry 16 1 1) Start.Empty false called_report }
{}
